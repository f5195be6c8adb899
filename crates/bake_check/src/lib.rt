// The checker of ETC1 blocks that an outside baker sends.
#![tactic(auto)]

ghost use Rattle.std.specs.Prelude.{◌≡◌, ℕ, ◌≤◌, length, get_or};
ghost use Rattle.rules.specs.Counting.{each};
ghost use Rattle.rules.specs.Checking.{near as near_to, Checks};
ghost use Rattle.laws.specs.Kinds.{strange};

use bake::distance;
use rules::{BakingRefusal, Format, Kind};

// Whether a kind is one that ETC1 does not have: then a sum is out of range.
fn is_strange(kind: Kind) -> bool
    ensures { result ≡ strange kind }
{
    matches!(kind, Kind::T | Kind::H | Kind::Planar)
}

// Whether sixteen pixels are near those of a tile, each of them.
fn all_near(tolerance: u32, pixels: [u32; 16], tile: &[u32]) -> bool
    requires { 16 ≤ length tile.now }
    ensures { result ≡ each (λ (k : ℕ). near_to tolerance (get_or pixels k 0) (get_or tile.now k 0)) 16 }
{
    for k in 0..16 {
        if !distance::near(tolerance, pixels[k], tile[k]) {
            return false;
        }
    }
    true
}

// Checks a block against a tile, within a tolerance.
pub fn check(block: &[u8], tile: &[u32], tolerance: u32) -> Result<(), BakingRefusal>
    ensures { Checks tolerance block.now tile.now result }
{
    if block.len() < 8 {
        return Err(BakingRefusal::ShortBlock);
    }
    if tile.len() < 16 {
        return Err(BakingRefusal::ShortTile);
    }
    if is_strange(kinds::kind_of(block)) {
        return Err(BakingRefusal::NotAccepted); // out of range
    }
    if !all_near(tolerance, blocks::block_at(Format::Etc1, block, 0), tile) {
        return Err(BakingRefusal::NotAccepted);
    }
    Ok(())
}
