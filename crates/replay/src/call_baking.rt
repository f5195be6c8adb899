// The checker and the baker of ETC1 blocks.
ghost use Rattle.std.specs.Prelude.{◌≤◌, length};

use super::case::Said;
use super::{call, elements, words};
use rules::BakingRefusal;

fn told(answer: Result<(), BakingRefusal>) -> Said {
    Said {
        number: readers::baking_number(answer),
        extra: 0,
    }
}

// The data is the block, and the image the tile.
pub fn check(tolerance: usize, data: &[u8], image: &[u32]) -> Said {
    told(readers::check_etc1_block(data, image, (tolerance % 0x100000000) as u32))
}

// The data is the two bases and then the tile, at most seventeen elements of it, and the image the room for the block, one byte
// an element.
pub fn bake(flip: usize, data: &[u8], image: &mut [u32]) -> Said {
    if data.len() < 6 {
        return call::unknown();
    }
    let mut tile = [0u32; 17];
    let n = elements_of(data.len());
    words::unpack(&data[6..], &mut tile[..n]);
    let mut room = [0u8; 65600];
    bake_in(flip, data, &tile[..n], &mut room, image)
}

fn elements_of(n: usize) -> usize
    ensures { result ≤ 17 }
{
    if n < 6 {
        return 0;
    }
    if 73 < n {
        return 17;
    }
    (n - 6) / 4
}

fn bake_in(flip: usize, data: &[u8], tile: &[u32], room: &mut [u8], image: &mut [u32]) -> Said
    requires { 6 ≤ length «data».now }
{
    let n = image.len();
    if room.len() < n {
        return call::unknown();
    }
    elements::turn(image, room, |x| (x % 256) as u8);
    let first = [data[0], data[1], data[2]];
    let second = [data[3], data[4], data[5]];
    let answer = readers::bake_etc1_block(first, second, flip, tile, &mut room[..n]);
    elements::turn(room, image, |b| u32::from(b));
    told(answer)
}
