// The nearest of four colours to a pixel, and the least sum of a half with them: the inner search of the baker of blocks.
ghost use Rattle.std.specs.Prelude.{◌≡◌, cond, ◌≤◌, ◌<◌, ltb};
ghost use Rattle.bake.specs.nearest.Search.{away, nearest_of, cost_of};

use super::distance;
use super::tile::Tile;

// The best so far: where it is, and how much it is there.
#[derive(Clone, Copy)]
pub struct Best {
    pub at: usize,
    pub value: u32,
}

// The best so far, or one that is less: so of two that are as little, the first.
pub fn better(b: Best, at: usize, value: u32) -> Best
    ensures { (result.at ≡ cond (ltb value b.value) at b.at) × (result.value ≡ cond (ltb value b.value) value b.value) }
{
    if value < b.value {
        Best { at, value }
    } else {
        b
    }
}

// The first of four colours that is least far from a pixel.
pub fn nearest(colours: [u32; 4], v: u32) -> Best
    ensures { (result.at ≡ nearest_of colours v) × (result.at < 4) × (result.value ≡ away colours v (nearest_of colours v))
        × (result.value ≤ 765) }
{
    let mut b = Best {
        at: 0,
        value: distance::differ(colours[0], v),
    };
    for i in 1..4 {
        b = better(b, i, distance::differ(colours[i], v));
    }
    b
}

// The least sum of half h with these colours.
pub fn half_cost(colours: [u32; 4], tile: Tile, h: usize) -> u32
    requires { h < 2 }
    ensures { result ≡ cost_of colours tile.entry.flip tile.entry.pixels.now h }
{
    let mut sum: u32 = 0;
    for j in 0..8 {
        let near = nearest(colours, tile.pixels[tile.own(h, j)]);
        sum += near.value;
    }
    sum
}
