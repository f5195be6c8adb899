// How many blocks meet each test of a census: each meets one.
ghost use Rattle.std.specs.Prelude.{true, ◌≡◌, ◌*◌, ◌<◌, ◌≤◌, length};
ghost use Rattle.rules.specs.Places.{bytes_of};
ghost use Rattle.rules.specs.Census.{counts};
ghost use Rattle.rules.specs.Colour.{kind_by_sums_lem};
ghost use Rattle.laws.specs.Sorted.{met, only, eight, fourth};

use rules::Kind;

// The place of a block's kind among the four that RGBA1 has. None is individual.
fn among_four(d: &[u8]) -> usize
    requires { 8 ≤ length d.now }
    ensures { (result ≡ fourth (kind_by_sums_lem d.now)) × (result < 4) }
{
    match kinds::kind_by_sums(d) {
        Kind::Individual => 0,
        Kind::Differential => 0,
        Kind::T => 1,
        Kind::H => 2,
        Kind::Planar => 3,
    }
}

// The number of the one test that a block meets, among those of RGBA1, which split by the opaque bit, or those of RGB.
fn place_of(split: bool, d: &[u8]) -> usize
    requires { 8 ≤ length d.now }
    ensures { (only (met (eight split) d.now) result ≡ true) × (result < 8) }
{
    let four = among_four(d);
    if d[3] / 2 % 2 == 1 {
        if split { four } else { four + 1 }
    } else {
        if split { four + 4 } else { 0 }
    }
}

// How many of the first n blocks meet each test: eight counts by the number of their test, as `eight` of crates/laws/specs lists them.
pub fn tally(split: bool, data: &[u8], n: usize) -> [usize; 8]
    requires { n * 8 ≤ length «data».now }
    ensures { result ≡ counts (bytes_of 8 «data».now) n (eight split) }
{
    let mut tally = [0usize; 8];
    for b in 0..n {
        let at = b * 8;
        let place = place_of(split, &data[at..at + 8]);
        tally[place] += 1;
    }
    tally
}
