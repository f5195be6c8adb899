// What an older viewer shows wrong, in numbers: how many pixels and blocks, the first of them, and by how much. Nothing is painted.
#![tactic(auto)]

ghost use Rattle.std.specs.Prelude.{◌≡◌, cond, not, ◌&&◌, ℕ, suc, ◌*◌, ◌<◌, ◌≤◌, ltb, eqb, length, get_or};
ghost use Rattle.rules.specs.Pixel.{alpha_of};
ghost use Rattle.rules.specs.Places.{blocks};
ghost use Rattle.rules.specs.Answers.{limit, first_of};
ghost use Rattle.rules.specs.Census.{more};
ghost use Rattle.rules.specs.Checking.{apart, farthest};
ghost use Rattle.guard.specs.Viewers.{guard_of};
ghost use Rattle.rules.specs.Older.{wrong, CountsOlder};
ghost use Rattle.older.specs.Compared.{Finds, FindsIn, clipped, Counted, Joined};

use bake::distance;
use guard::Viewer;
use rules::{OlderCounts, Picture, Refusal};

// The same of one block: how many pixels, the first of them or 16, and the differences.
#[derive(Clone, Copy)]
struct Found {
    pixels: u32,
    place: usize,
    colour: u32,
    alpha: u32,
}

// Whether a pixel is shown, and not alike.
fn is_wrong(shown: bool, p: u32, q: u32) -> bool
    ensures { result ≡ (shown && not (eqb p q)) }
{
    shown & (p != q)
}

// How far the colour of a wrong pixel is off; any other is off by 0.
fn colour_off(wrong: bool, p: u32, q: u32) -> u32
    ensures { result ≡ cond wrong (farthest p q) 0 }
{
    if wrong {
        return distance::farthest(p, q);
    }
    0
}

// And its alpha.
fn alpha_off(wrong: bool, p: u32, q: u32) -> u32
    ensures { result ≡ cond wrong (apart (alpha_of p) (alpha_of q)) 0 }
{
    if wrong {
        return distance::alphas(p, q);
    }
    0
}

// Whether place k lies in the columns and rows that are left of the picture.
fn is_shown(k: usize, columns: usize, rows: usize) -> bool
    ensures { result ≡ clipped columns rows k }
{
    let beside = k % 4 < columns;
    let below = k / 4 < rows;
    beside & below
}

// The first place of a block that two rules show differently, or 16, as far as its columns and rows are shown.
fn first_wrong(old: &[u32; 16], new: &[u32; 16], columns: usize, rows: usize) -> usize
    ensures { result ≡ first_of (wrong (clipped columns rows) (λ (k : ℕ). get_or old.now k 0)
        (λ (k : ℕ). get_or new.now k 0)) 16 }
{
    for k in 0..16 {
        if is_wrong(is_shown(k, columns, rows), old[k], new[k]) {
            return k;
        }
    }
    16
}

// Compares what two rules show of a block, as far as its columns and rows are shown. The first place has a loop of its own, which mostly
// ends at once: without it LLVM compares four places at a time.
fn compare(old: [u32; 16], new: [u32; 16], columns: usize, rows: usize) -> Found
    ensures { Finds (clipped columns rows) (λ (k : ℕ). get_or old k 0) (λ (k : ℕ). get_or new k 0) result }
{
    let first = first_wrong(&old, &new, columns, rows);
    let mut pixels: u32 = 0;
    let mut colour: u32 = 0;
    let mut alpha: u32 = 0;
    for k in 0..16 {
        let p = old[k];
        let q = new[k];
        let wrong = is_wrong(is_shown(k, columns, rows), p, q);
        pixels += u32::from(wrong);
        colour = distance::larger(colour_off(wrong, p, q), colour);
        alpha = distance::larger(alpha_off(wrong, p, q), alpha);
    }
    Found {
        pixels,
        place: first,
        colour,
        alpha,
    }
}

// The first block of those up to b, where the first of those before b is known.
fn first_up_to(first: usize, b: usize, some: bool) -> usize
    requires { b ≤ 0x10000000 }
    ensures { result ≡ cond (ltb first b) first (cond some b (suc b)) }
{
    if first < b {
        return first;
    }
    if some { b } else { b + 1 }
}

// The counts of the blocks before block b, with those of block b.
fn join(c: OlderCounts, b: usize, f: Found) -> OlderCounts
    requires { (c.pixels ≤ b * 16) × (c.blocks ≤ b) × (f.pixels ≤ 16) × (b ≤ 0x10000000) }
    ensures { Joined c b f result }
{
    let some = f.place < 16;
    let found = c.block < b;
    OlderCounts {
        pixels: c.pixels + f.pixels as usize,
        blocks: c.blocks + usize::from(some),
        block: first_up_to(c.block, b, some),
        place: if found { c.place } else { f.place },
        colour: distance::larger(f.colour, c.colour),
        alpha: distance::larger(f.alpha, c.alpha),
    }
}

// A viewer, and a picture whose blocks the data have.
#[derive(Clone, Copy)]
struct Viewed<'a> {
    viewer: Viewer,
    data: &'a [u8],
    pic: Picture,
    ghost narrow: { pic.width ≤ limit },
    ghost low: { pic.height ≤ limit },
    ghost enough: { blocks pic * 8 ≤ length «data».now },
}

impl<'a> Viewed<'a> {
    // Compares block b under both rules.
    fn compare_at(self, b: usize) -> Found
        requires { b < blocks self.pic }
        ensures { FindsIn (guard_of self.entry.viewer) self.entry.pic self.entry.«data».now b result }
    {
        let old = blocks::block_at(guard::own(self.viewer), self.data, b);
        let new = blocks::block_at(guard::shown(self.viewer), self.data, b);
        let row = checks::across(self.pic.width);
        let columns = self.pic.width - b % row * 4;
        let rows = self.pic.height - b / row * 4;
        compare(old, new, columns, rows)
    }

    // What is wrong in block b. The two rules agree on a block that the guard lets pass: it is not read.
    fn in_block(self, b: usize) -> Found
        requires { b < blocks self.pic }
        ensures { FindsIn (guard_of self.entry.viewer) self.entry.pic self.entry.«data».now b result }
    {
        let at = b * 8;
        let end = at + 8;
        match guard::judged(self.viewer, &self.data[at..end], b) {
            Ok(()) => Found {
                pixels: 0,
                place: 16,
                colour: 0,
                alpha: 0,
            },
            Err(_) => self.compare_at(b),
        }
    }

    // Counts what is wrong in the first n blocks.
    fn tally(self, n: usize) -> OlderCounts
        requires { (n ≡ blocks self.pic) × (n ≤ 0x10000000) }
        ensures { Counted (guard_of self.entry.viewer) self.entry.pic self.entry.«data».now n result }
    {
        let mut c = OlderCounts {
            pixels: 0,
            blocks: 0,
            block: 0,
            place: 16,
            colour: 0,
            alpha: 0,
        };
        for b in 0..n {
            c = join(c, b, self.in_block(b));
        }
        c
    }
}

// Counts what an older viewer shows wrong of a picture, for all inputs.
pub fn count(viewer: Viewer, data: &[u8], pic: Picture) -> Result<OlderCounts, Refusal>
    ensures { CountsOlder (guard_of viewer) «data».now pic result }
{
    let n = checks::countable(pic, data.len())?;
    Ok(Viewed { viewer, data, pic }.tally(n))
}
