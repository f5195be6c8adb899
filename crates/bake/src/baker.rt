// The baker of individual ETC1 blocks: for each half the code with the least sum, for each pixel the index with the least difference.
ghost use Rattle.std.specs.Prelude.{◌≡◌, ◌+◌, ◌*◌, ◌≤◌, ◌<◌, length};
ghost use Rattle.rules.specs.Baking.{seventeen, baked_block, above as above_of, eight_over, Bakes};
ghost use Rattle.bake.specs.baking.Four.{Four};

use super::tile::Tile;
use super::{codes, indices};
use rules::BakingRefusal;

// A base colour of four bits a channel, as eight.
fn widened(c: [u8; 3]) -> [u8; 3]
    requires { Four c }
    ensures { result ≡ seventeen c }
{
    [c[0] * 17, c[1] * 17, c[2] * 17]
}

// Two nibbles as a byte.
fn nibbles(a: u8, b: u8) -> u8
    requires { (a < 16) × (b < 16) }
    ensures { result ≡ 16 * a + b }
{
    16 * a + b
}

// Two codes and a flip as a byte.
fn code_byte(a: usize, b: usize, flip: usize) -> u8
    requires { (a < 8) × (b < 8) × (flip < 2) }
    ensures { result ≡ 32 * a + 4 * b + flip }
{
    (32 * a + 4 * b + flip) as u8
}

// The eight bytes.
fn baked(first: [u8; 3], second: [u8; 3], flip: usize, tile: &[u32]) -> [u8; 8]
    requires four { Four first }
    requires four_2 { Four second }
    requires flip_bound { (flip < 2) × (16 ≤ length tile.now) }
    ensures { result ≡ baked_block first second flip tile.now }
{
    let a = widened(first);
    let b = widened(second);
    let tile = Tile { flip, pixels: tile };
    let first_code = codes::best_code(a, tile, 0);
    let second_code = codes::best_code(b, tile, 1);
    let w = indices::index_words(
        [
            codes::colours(a, first_code),
            codes::colours(b, second_code),
        ],
        tile,
    );
    [
        nibbles(first[0], second[0]),
        nibbles(first[1], second[1]),
        nibbles(first[2], second[2]),
        code_byte(first_code, second_code, flip),
        (w.high / 256) as u8,
        (w.high % 256) as u8,
        (w.low / 256) as u8,
        (w.low % 256) as u8,
    ]
}

// Whether a channel is above 15.
fn above(c: [u8; 3]) -> bool
    ensures { result ≡ above_of c }
{
    15 < c[0] || 15 < c[1] || 15 < c[2]
}

// Writes eight bytes, and no other.
fn write(eight: [u8; 8], block: &mut [u8])
    requires { 8 ≤ length block.old }
    ensures { block.new ≡ eight_over eight block.old }
{
    block[..8].copy_from_slice(&eight);
}

// Bakes the individual block with these bases and this flip that has the least sum of differences from the tile.
pub fn bake(
    first: [u8; 3],
    second: [u8; 3],
    flip: usize,
    tile: &[u32],
    block: &mut [u8],
) -> Result<(), BakingRefusal>
    ensures { Bakes first second flip tile.now result block.old block.new }
{
    if above(first) {
        return Err(BakingRefusal::NoBase);
    }
    if above(second) {
        return Err(BakingRefusal::NoBase);
    }
    if 1 < flip {
        return Err(BakingRefusal::NoBase);
    }
    if block.len() < 8 {
        return Err(BakingRefusal::ShortBlock);
    }
    if tile.len() < 16 {
        return Err(BakingRefusal::ShortTile);
    }
    write(baked(first, second, flip, tile), block);
    Ok(())
}
