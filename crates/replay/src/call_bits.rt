// The bit reader, and the BC7 block that is read through it.
use super::case::Said;
use super::{call, elements};
use bc7_held::bits;
use rules::Refusal;

// Some bits at a place: they and the place behind them, in two elements, are the first three elements.
pub fn read(place: usize, n: usize, data: &[u8], image: &mut [u32]) -> Said {
    let found = bits::read_at(data, place, n);
    let after = found.place;
    match found.bits {
        Some(b) => {
            let values = [usize::from(b), after, after / 0x100000000];
            call::told(elements::put(&values, image))
        }
        None => {
            let values = [after, after / 0x100000000];
            let _ = elements::put(&values, image);
            call::told(Err(Refusal::ShortData))
        }
    }
}

// A block that begins at any bit; at the first one through a reader that is handed on.
fn block_at(place: usize, data: &[u8]) -> Result<[u32; 16], Refusal> {
    if place == 0 {
        return bc7_held::first_block(data);
    }
    bc7_held::block_from(data, place)
}

pub fn block(place: usize, data: &[u8], image: &mut [u32]) -> Said {
    call::told(painted(block_at(place, data), image))
}

fn painted(block: Result<[u32; 16], Refusal>, image: &mut [u32]) -> Result<(), Refusal> {
    let pixels = block?;
    if image.len() < 16 {
        return Err(Refusal::ShortImage);
    }
    image[..16].copy_from_slice(&pixels);
    Ok(())
}
