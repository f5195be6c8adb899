// What ETC1 and ETC2 blocks of two halves share, after src/etc/etc1.rs: two base colours, and eight colours of them.
ghost use Rattle.std.specs.Prelude.{◌≡◌, ◌*◌, ◌<◌, ◌≤◌, [], length, slice_index_or};
ghost use Rattle.rules.specs.Notation.{bits};
ghost use Rattle.rules.specs.Colour.{base, five, wrapped, individual, wrapping, steps_of};
ghost use Rattle.tables.specs.consts.Tables.{four_steps};
ghost use Rattle.etc_colour.specs.shade.Pick.{eight};
ghost use Rattle.etc_colour.specs.shade.Tone.{Steps};
ghost use Rattle.etc_colour.specs.etc1.Halves.{shades, of_half_lem};

use super::shade;
use super::widen::widened;
use tables::consts;

// A byte's high nibble, as eight bits.
fn high_nibble(b: u8) -> u8
    ensures { result ≡ bits 7 4 b * 17 }
{
    b / 16 * 17
}

// A byte's low nibble, as eight bits.
fn low_nibble(b: u8) -> u8
    ensures { result ≡ bits 3 0 b * 17 }
{
    b % 16 * 17
}

// The first base of a difference: a byte's high five bits.
fn first_base(b: u8) -> u8
    ensures { result ≡ five (base b) }
{
    widened::<5>(b / 8)
}

// Base plus step, in eightfold values that wrap; an eighth of it.
fn wrapped_sum(b: u8) -> u8
    ensures { (result ≡ wrapped b) × (result < 32) }
{
    let eightfold = b / 8 * 8;
    let up = eightfold.wrapping_add(b % 4 * 8);
    up.wrapping_sub(b / 4 % 2 * 32) / 8
}

// The second base of a difference.
fn second_base(b: u8) -> u8
    ensures { result ≡ five (wrapped b) }
{
    widened::<5>(wrapped_sum(b))
}

// The base colours of an individual block. The third, which `individual` has, is not used. One function over two closures for this and for
// differential blocks is no plainer: its contract would say what each closure gives at each of three bytes.
pub fn individual_bases(d: &[u8]) -> [[u8; 3]; 3]
    requires { 8 ≤ length d.now }
    ensures { result ≡ individual d.now }
{
    [
        [high_nibble(d[0]), high_nibble(d[1]), high_nibble(d[2])],
        [low_nibble(d[0]), low_nibble(d[1]), low_nibble(d[2])],
        [0, 0, 0],
    ]
}

// The base colours of a differential block, whose sums wrap. The third, which `wrapping` has, is not used.
pub fn differential_bases(d: &[u8]) -> [[u8; 3]; 3]
    requires { 8 ≤ length d.now }
    ensures { result ≡ wrapping d.now }
{
    [
        [first_base(d[0]), first_base(d[1]), first_base(d[2])],
        [second_base(d[0]), second_base(d[1]), second_base(d[2])],
        [0, 0, 0],
    ]
}

// The four steps of a code, by index.
pub fn code_steps(code: usize) -> [i16; 4]
    requires { code < 8 }
    ensures { result ≡ four_steps (steps_of code) }
{
    let table = consts::modifiers();
    table[8 + code]
}

// The colours of both halves, from their base colours and their steps. Where a block is not opaque, index 2 is transparent.
pub fn both_halves(c: [[u8; 3]; 3], first: &[i16; 4], second: &[i16; 4], opaque: bool) -> [u32; 8]
    requires { Steps opaque first.now × Steps opaque second.now }
    ensures { result ≡ eight (λ h. shades opaque (slice_index_or c h []) (of_half_lem first.now second.now h)) }
{
    let a = shade::four_colours([c[0]; 4], first, opaque);
    let b = shade::four_colours([c[1]; 4], second, opaque);
    shade::joined(a, b)
}
