// The reader of a picture in pieces for callers who keep its state themselves, in two arrays that they lend: five numbers and fifteen
// bytes. Every content of them is a state, so a caller who spoils them gets another picture and never a store out of place.
ghost use Rattle.std.specs.Prelude.{◌≡◌, length};
ghost use Rattle.rules.specs.Pieces.{Ends};
ghost use Rattle.capi.specs.pieces_lent.Lent.{state_in_lem, StartLent, PieceLent};

use file::formats;
use rules::{Format, Picture, Progress, Refusal};

// The state that the two arrays hold.
fn state_in(numbers: [usize; 5], kept: [u8; 15]) -> Progress
    ensures { result ≡ state_in_lem numbers kept }
{
    let f = formats::format_at(numbers[0]);
    let pic = Picture {
        width: numbers[1],
        height: numbers[2],
        pitch: numbers[3],
    };
    Progress {
        format: f,
        picture: pic,
        taken: numbers[4],
        kept,
    }
}

// Starts to read a picture: the two arrays then hold the fresh state, whatever the answer is.
pub fn start(
    f: Format,
    pic: Picture,
    image: &[u32],
    numbers: &mut [usize; 5],
    kept: &mut [u8; 15],
) -> Result<(), Refusal>
    ensures { StartLent f pic (length image.now) result numbers.new kept.new }
{
    let started = pieces::start(f, pic, image);
    let progress = started.progress;
    let bytes = progress.kept;
    *numbers = [usize::from(f), pic.width, pic.height, pic.pitch, 0];
    *kept = bytes;
    started.answer
}

// Takes a piece: the arrays then hold the state after it.
pub fn take_piece(
    numbers: &mut [usize; 5],
    kept: &mut [u8; 15],
    bytes: &[u8],
    image: &mut [u32],
    painted: &mut usize,
    unused: &mut usize,
) -> Result<(), Refusal>
    ensures { PieceLent numbers.old kept.old bytes.now image.old
        result numbers.new kept.new painted.new unused.new image.new }
{
    let before = *numbers;
    let state = state_in(before, *kept);
    let taken = pieces::piece(state, bytes, image);
    let after = taken.progress;
    let rest = after.kept;
    *numbers = [before[0], before[1], before[2], before[3], after.taken];
    *kept = rest;
    *painted = taken.painted;
    *unused = taken.unused;
    taken.answer
}

// Ends: what the arrays hold is not changed.
pub fn end(numbers: &[usize; 5], kept: &[u8; 15]) -> Result<(), Refusal>
    ensures { Ends (state_in_lem numbers.now kept.now) result }
{
    pieces::end(state_in(*numbers, *kept))
}
