// The index of each pixel of a tile with the colours of its half, and the two words of index bits.
ghost use Rattle.std.specs.Prelude.{◌≡◌, ◌<◌, [], slice_index_or};
ghost use Rattle.rules.specs.Baking.{high_of, low_of};
ghost use Rattle.bake.specs.indices.Index.{index_by};

use super::nearest;
use super::tile::Tile;

// The words of the high and of the low index bits.
#[derive(Clone, Copy)]
pub struct Words {
    pub high: u32,
    pub low: u32,
}

// The index of the pixel at place k, by the colours of its half.
fn index_at(halves: [[u32; 4]; 2], tile: Tile, k: usize) -> u32
    requires { k < 16 }
    ensures { (result ≡ index_by (slice_index_or halves 0 []) (slice_index_or halves 1 []) tile.entry.flip tile.entry.pixels.now k)
        × (result < 4) }
{
    let near = nearest::nearest(halves[tile.half_of(k)], tile.pixels[k]);
    near.at as u32
}

// The words of the index bits: pixel i = 4x + y at bit i, so from the last pixel down.
pub fn index_words(halves: [[u32; 4]; 2], tile: Tile) -> Words
    ensures { (result.high ≡ high_of
        (index_by (slice_index_or halves 0 []) (slice_index_or halves 1 []) tile.entry.flip tile.entry.pixels.now))
        × (result.low ≡ low_of
        (index_by (slice_index_or halves 0 []) (slice_index_or halves 1 []) tile.entry.flip tile.entry.pixels.now))
        × (result.high < 65536)
        × (result.low < 65536) }
{
    let mut high: u32 = 0;
    let mut low: u32 = 0;
    for i in (0..16).rev() {
        let k = 4 * (i % 4) + i / 4;
        let index = index_at(halves, tile, k);
        high = high * 2 + index / 2;
        low = low * 2 + index % 2;
    }
    Words { high, low }
}
