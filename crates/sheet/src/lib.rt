// What the reader and the writer of sheets share: the formats by their numbers, and how many bytes a picture's blocks are.
#![tactic(auto)]

pub mod find;
pub mod first;
pub mod later;
pub mod records;
pub mod write;

ghost use Rattle.std.specs.Prelude.{◌≡◌, ◌*◌, ◌<◌, ◌≤◌};
ghost use Rattle.rules.specs.Places.{blocks};
ghost use Rattle.rules.specs.Formats.{size_of};
ghost use Rattle.rules.specs.Sheets.{sheet_limit, format_of};

use rules::{Format, Picture};

// The format of a sheet's number, which the bytes and callers from C have.
#[tactic(auto, using(crate::proofs::Formats::by_number))]
pub fn format_of(n: usize) -> Format
    requires { n < 8 }
    ensures { result ≡ format_of n }
{
    Format::try_from(n).unwrap_or(Format::Etc1)
}

// How many bytes the blocks of a picture are.
pub fn block_bytes(format: Format, pic: Picture) -> usize
    requires { (pic.width ≤ sheet_limit) × (pic.height ≤ sheet_limit) }
    ensures { (result ≡ blocks pic * size_of format) × (result ≤ 0x10000000) }
{
    checks::blocks_of(pic) * checks::size(format)
}
