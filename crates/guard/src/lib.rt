// The scan for a block that an older viewer must not show, said once for both viewers: the first such block of some bytes.
#![tactic(auto)]

ghost use Rattle.std.specs.Prelude.{◌≡◌, cond, [], ◌∷◌, ◌*◌, ◌≤◌, length};
ghost use Rattle.rules.specs.Answers.{said};
ghost use Rattle.rules.specs.Guards.{not_opaque};
ghost use Rattle.laws.specs.Kinds.{strange};
ghost use Rattle.guard.specs.Viewers.{guard_of, scanned_from};

use rules::{Format, Kind, Refusal};

// The older viewers: one that knows ETC1 alone, and one that knows ETC2 RGB, but nothing transparent.
#[derive(Clone, Copy)]
pub enum Viewer {
    Etc1,
    Opaque,
}

// The rule that a viewer has for a block.
pub fn own(viewer: Viewer) -> Format
    ensures { result ≡ (guard_of viewer).own }
{
    match viewer {
        Viewer::Etc1 => Format::Etc1,
        Viewer::Opaque => Format::Etc2Rgb,
    }
}

// The newer rule, by which the block is shown right.
pub fn shown(viewer: Viewer) -> Format
    ensures { result ≡ (guard_of viewer).shown }
{
    match viewer {
        Viewer::Etc1 => Format::Etc2Rgb,
        Viewer::Opaque => Format::Etc2Rgba1,
    }
}

// In range goes on; otherwise the refusal of ETC1 with the block's number.
fn in_range(kind: Kind, block: usize) -> Result<(), Refusal>
    ensures { said result ≡ cond (strange kind) (4 ∷ block ∷ []) (0 ∷ []) }
{
    let (Kind::Individual | Kind::Differential) = kind else {
        return Err(Refusal::OutOfRange(block));
    };
    Ok(())
}

// Opaque goes on; otherwise the refusal of an opaque-only viewer with the block's number.
fn opaque(d: &[u8], block: usize) -> Result<(), Refusal>
    requires { 8 ≤ length d.now }
    ensures { said result ≡ cond (not_opaque d.now) (11 ∷ block ∷ []) (0 ∷ []) }
{
    if d[3] / 2 % 2 != 1 {
        return Err(Refusal::NotOpaque(block));
    }
    Ok(())
}

// What a viewer says of a block that has these bytes and this number.
pub fn judged(viewer: Viewer, d: &[u8], block: usize) -> Result<(), Refusal>
    requires { 8 ≤ length d.now }
    ensures { said result ≡ cond ((guard_of viewer).bad d.now) ((guard_of viewer).number ∷ block ∷ []) (0 ∷ []) }
{
    match viewer {
        Viewer::Etc1 => in_range(kinds::kind_of(d), block),
        Viewer::Opaque => opaque(d, block),
    }
}

// What is to be said of n blocks, of which the first has the number from: the refusal of the first that a viewer must not show.
pub fn refusal(viewer: Viewer, data: &[u8], from: usize, n: usize) -> Result<(), Refusal>
    requires { (n * 8 ≤ length «data».now) × (from ≤ 0x1000000) }
    ensures { said result ≡ scanned_from (guard_of viewer) from n «data».now }
{
    for b in 0..n {
        let at = b * 8;
        let end = at + 8;
        judged(viewer, &data[at..end], from + b)?;
    }
    Ok(())
}
