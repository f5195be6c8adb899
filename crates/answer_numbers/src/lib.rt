// What an answer says: its number in document 01, and the block that it names.
#![tactic(auto)]

ghost use Rattle.std.specs.Prelude.{◌≡◌, get_or, slice_get};
ghost use Rattle.rules.specs.Answers.{said, refusal_said};
ghost use Rattle.rules.specs.Checking.{baking_said};

use rules::{BakingRefusal, Refusal};

// Document 01's number of a refusal.
pub fn refusal_number(refusal: Refusal) -> u32
    ensures { result ≡ get_or (refusal_said refusal) 0 0 }
{
    match refusal {
        Refusal::TooLarge => 1,
        Refusal::ShortData => 2,
        Refusal::ShortImage => 3,
        Refusal::OutOfRange(_) => 4,
        Refusal::NoChannel => 5,
        Refusal::LongData => 6,
        Refusal::CutShort => 7,
        Refusal::NoHead => 8,
        Refusal::OtherKind => 9,
        Refusal::WrongBlocks => 10,
        Refusal::NotOpaque(_) => 11,
        Refusal::ShortPitch => 12,
        Refusal::HeaderCut => 20,
        Refusal::UnknownContainer => 21,
        Refusal::UnknownVersion => 22,
        Refusal::UnknownFormat => 23,
        Refusal::SizesDisagree => 24,
        Refusal::NotFlat => 25,
        Refusal::NoPixel => 26,
        Refusal::LevelsMissing => 37,
        Refusal::NoLevel => 38,
        Refusal::Supercompressed => 41,
    }
}

// Document 01's number of an answer.
pub fn number(answer: Result<(), Refusal>) -> u32
    ensures { result ≡ get_or (said answer) 0 0 }
{
    match answer {
        Ok(()) => 0,
        Err(refusal) => refusal_number(refusal),
    }
}

// The block that a refusal names.
fn block_in(refusal: Refusal) -> Option<usize>
    ensures { result ≡ slice_get (refusal_said refusal) 1 }
{
    match refusal {
        Refusal::OutOfRange(block) | Refusal::NotOpaque(block) => Some(block),
        _ => None,
    }
}

// The block that an answer names.
pub fn block_of(answer: Result<(), Refusal>) -> Option<usize>
    ensures { result ≡ slice_get (said answer) 1 }
{
    block_in(answer.err()?)
}

// The number of an answer of the checker or the baker of blocks.
pub fn baking_number(answer: Result<(), BakingRefusal>) -> u32
    ensures { result ≡ get_or (baking_said answer) 0 0 }
{
    match answer {
        Ok(()) => 0,
        Err(BakingRefusal::ShortBlock) => 2,
        Err(BakingRefusal::ShortTile) => 3,
        Err(BakingRefusal::NoBase) => 16,
        Err(BakingRefusal::NotAccepted) => 18,
    }
}
