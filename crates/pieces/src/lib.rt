// A picture whose bytes arrive in pieces of any length: each block is painted as soon as it is whole, and between two pieces at most
// 15 bytes are kept. The state goes in by value and comes back. Every value of it is a state, so a forged one is answered like any
// other, and nothing is asked of the caller. `pic` and `image` are apart, as README and docs/API.md have them.
#![tactic(auto)]

mod joined;
pub mod kept;

ghost use Rattle.std.specs.Prelude.{◌≡◌, ◌≤◌, length};
ghost use Rattle.rules.specs.Answers.{said, limit, verdict};
ghost use Rattle.rules.specs.Pieces.{start_checks, Starts, Takes, Ends};
ghost use Rattle.pixel.specs.place.Tile.{Room};
ghost use Rattle.pieces.specs.Took.{Took};

use kept::Arrived;
use rules::{Format, Picture, Progress, Refusal, Started, Taken};

// The checks of starting and of each piece: 1, 12, 3. Blocks of no bytes need no data.
fn check(pic: Picture, elements: usize) -> Result<(), Refusal>
    ensures { said result ≡ verdict (start_checks pic elements) }
{
    checks::verify(0, pic, 0, elements)
}

// Starts to read a picture: no byte is taken.
pub fn start(f: Format, pic: Picture, image: &[u32]) -> Started
    ensures { Starts f pic (length image.now) result }
{
    Started {
        answer: check(pic, image.len()),
        progress: Progress {
            format: f,
            picture: pic,
            taken: 0,
            kept: [0; 15],
        },
    }
}

// Takes a piece into a picture that has passed the checks.
fn take_piece(p: Progress, bytes: &[u8], image: &mut [u32]) -> Taken
    requires { (p.picture.width ≤ limit) × (p.picture.height ≤ limit) × Room p.picture (length image.old) }
    ensures { Took p bytes.now image.old result image.new }
{
    let s = checks::size(p.format);
    let whole = checks::blocks_of(p.picture) * s;
    let got = p.taken.min(whole);
    let used = bytes.len().min(whole - got);
    let later = got + used;
    let first = got / s;
    let last = later / s;
    let count = last - first;
    let kept = p.kept;
    let arrived = Arrived {
        kept,
        held: got % s,
        bytes,
    };
    joined::paint_joined(p.format, &arrived, p.picture, first, last, image);
    Taken {
        answer: Ok(()),
        progress: Progress {
            taken: later,
            kept: arrived.rest_of(count * s, later % s),
            ..p
        },
        painted: count,
        unused: bytes.len() - used,
    }
}

// Takes a piece: paints the blocks that it completes, and keeps what is left of it. A piece that is refused changes nothing.
pub fn piece(p: Progress, bytes: &[u8], image: &mut [u32]) -> Taken
    ensures { Takes p bytes.now image.old result image.new }
{
    if let Err(refusal) = check(p.picture, image.len()) {
        return Taken {
            answer: Err(refusal),
            progress: p,
            painted: 0,
            unused: bytes.len(),
        };
    }
    take_piece(p, bytes, image)
}

// Ends: done where every block is painted, and short of data where not. No picture needs more elements than 65,536 times 65,536.
pub fn end(p: Progress) -> Result<(), Refusal>
    ensures { Ends p result }
{
    checks::verify(checks::size(p.format), p.picture, p.taken, 0x100000000)
}
