// The colours of a half with each code, and the first code with the least sum: the outer search of the baker of blocks.
ghost use Rattle.std.specs.Prelude.{◌≡◌, ◌<◌};
ghost use Rattle.rules.specs.Colour.{steps_of, half_colours};
ghost use Rattle.rules.specs.Baking.{cost_for, code_for};

use super::nearest::{self, Best};
use super::tile::Tile;
use etc_colour::{etc1, shade};

// The four colours of a base colour with the steps of a code.
pub fn colours(base: [u8; 3], code: usize) -> [u32; 4]
    requires { code < 8 }
    ensures { result ≡ half_colours base (steps_of code) }
{
    let steps = etc1::code_steps(code);
    shade::four_colours([base; 4], &steps, true)
}

// The least sum of half h with this code. A half is a number, here and wherever it is `h`, since `code_for` (crates/rules) takes it.
fn code_cost(base: [u8; 3], tile: Tile, h: usize, code: usize) -> u32
    requires { (h < 2) × (code < 8) }
    ensures { result ≡ cost_for base tile.entry.flip tile.entry.pixels.now h code }
{
    nearest::half_cost(colours(base, code), tile, h)
}

// The first code with the least sum.
pub fn best_code(base: [u8; 3], tile: Tile, h: usize) -> usize
    requires { h < 2 }
    ensures { (result ≡ code_for base tile.entry.flip tile.entry.pixels.now h) × (result < 8) }
{
    let mut b = Best {
        at: 0,
        value: code_cost(base, tile, h, 0),
    };
    for c in 1..8 {
        b = nearest::better(b, c, code_cost(base, tile, h, c));
    }
    b.at
}
