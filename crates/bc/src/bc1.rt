// The BC1 block of src/bcn/bc1.rs, and `rgb565_le` of src/color.rs. Four colours first, and then a pick of two bits for each pixel. BC2
// and BC3 take their colours from here too.
ghost use Rattle.std.specs.Prelude.{◌≡◌, true, false, cond, ◌+◌, ◌-◌, ◌*◌, ◌/◌, ◌%◌, ◌≤◌, ◌<◌, ltb, eqb, length, get_or};
ghost use Rattle.rules.specs.Notation.{build, bits};
ghost use Rattle.rules.specs.Places.{tile};
ghost use Rattle.rules.specs.Desktop.{half_word_lem, has_four, palette_in_lem, colour_index, bc1_pixel};
ghost use Rattle.bc.specs.bc1.Lanes.{channel, sum, sixths, parts_lem, alpha_lane_lem, lane as lane_of, words_of};

use super::picks;

// The eight bytes of a half, the first lowest. The bytes of a block are lent as they are here and below, since `&[u8; 8]` would ask more
// of callers of `bc1_block`.
pub fn half_word(d: &[u8]) -> u64
    requires { 8 ≤ length d.now }
    ensures { result ≡ half_word_lem d.now }
{
    u64::from_le_bytes([d[0], d[1], d[2], d[3], d[4], d[5], d[6], d[7]])
}

// A product's low sixteen bits; `times`, `high` and `plus` are what vector code has for numbers of sixteen bits.
pub fn times(a: u16, b: u16) -> u16
    ensures { result ≡ a * b % 65536 }
{
    a.wrapping_mul(b)
}

// A product's high sixteen bits.
pub fn high(a: u16, b: u16) -> u16
    ensures { result ≡ a * b / 65536 }
{
    (u32::from(a) * u32::from(b) / 65536) as u16
}

// A sum's low sixteen bits.
pub fn plus(a: u16, b: u16) -> u16
    ensures { result ≡ (a + b) % 65536 }
{
    a.wrapping_add(b)
}

// One number where i is n, and another elsewhere: of these a loop over lanes makes constant vectors, where a table would be stored to
// the stack for each block.
pub fn pick(i: u16, n: u16, there: u16, elsewhere: u16) -> u16
    ensures { result ≡ cond (eqb i n) there elsewhere }
{
    if i == n { there } else { elsewhere }
}

// Channel c of a colour, widened to eight bits, after `rgb565_le`: its bits go to the top of sixteen, and from there to the bottom.
fn widened(q: u16, c: u16) -> u16
    ensures { result ≡ channel q c }
{
    let lift = pick(c, 0, 2048, pick(c, 1, 32, pick(c, 2, 1, 0)));
    let fall = pick(c, 0, 32, pick(c, 1, 64, pick(c, 2, 32, 0)));
    let spread = pick(c, 0, 132, pick(c, 1, 65, pick(c, 2, 132, 0)));
    times(high(times(q, lift), fall), spread) / 16
}

// x times a and y times b.
pub fn weighed(a: u16, b: u16, x: u16, y: u16) -> u16
    ensures { result ≡ sum a b x y }
{
    plus(times(a, x), times(b, y))
}

// So many sixths of a and of b. Thirds and halves are sixths too, and a sixth is a product and a shift.
fn mixed(a: u16, b: u16, x: u16, y: u16) -> u16
    ensures { result ≡ sixths a b x y }
{
    high(weighed(a, b, x, y), 10923)
}

// 1 where p is above q, and 0 elsewhere. This is a sum and a shift, since LLVM makes a branch of `p > q` here, and on random blocks the
// processor mispredicts every second such branch (docs/PERFORMANCE.md, "BC1 and BC3").
#[tactic(auto, using(crate::proofs::bc1::Colours::sign))]
fn above(p: u16, q: u16) -> u16
    ensures { result ≡ cond (ltb q p) 1 0 }
{
    ((65535 + u32::from(p) - u32::from(q)) / 65536) as u16
}

// 1 where there are four colours, and 0 where there are three and black.
#[inline(always)]
fn is_four(always: bool, p: u16, q: u16) -> u16
    ensures { result ≡ cond (has_four always p q) 1 0 }
{
    if always { 1 } else { above(p, q) }
}

// The parts of one of the two colours in colour k: all of it in colour OWN, and in colours 2 and 3 a half and none; where there are four
// colours, f is 1, and these two have THIRD and LAST more, which makes thirds.
fn parts<const OWN: u16, const THIRD: u16, const LAST: u16>(f: u16, k: u16) -> u16
    ensures { result ≡ parts_lem OWN THIRD LAST f k }
{
    plus(
        pick(k, OWN, 6, pick(k, 2, 3, 0)),
        times(f, pick(k, 2, THIRD, pick(k, 3, LAST, 0))),
    )
}

// What lane i has beside its colour: 255 in a lane of alpha, and in the last one 256, which is none, where t is 1.
fn alpha_lane(t: u16, i: u16) -> u16
    ensures { result ≡ alpha_lane_lem t i }
{
    plus(pick(i % 4, 3, 255, 0), times(t, pick(i, 15, 1, 0)))
}

// Lane i of the four colours: a byte of colour i / 4. Its numbers are parameters and no struct, since docs/CLAIMS.md names this function;
// `lanes` is its one caller.
#[tactic(auto, unfolding(crate::specs::bc1::Lanes::lane))]
pub fn lane(f: u16, t: u16, p: u16, q: u16, i: u16) -> u8
    ensures { result ≡ lane_of f t p q i }
{
    let c = i % 4;
    let k = i / 4;
    let colour = mixed(
        widened(p, c),
        widened(q, c),
        parts::<0, 1, 2>(f, k),
        parts::<1, 65535, 4>(f, k),
    );
    (plus(colour, alpha_lane(t, i)) % 256) as u8
}

#[inline(always)]
fn lanes(f: u16, t: u16, p: u16, q: u16) -> [u8; 16]
    ensures { result ≡ build 16 (lane_of f t p q) }
{
    let mut out = [0u8; 16];
    for i in 0..16 {
        out[i] = lane(f, t, p, q, i as u16);
    }
    out
}

// The words of sixteen lanes.
pub fn words(l: [u8; 16]) -> [u32; 4]
    ensures { result ≡ words_of l }
{
    [
        u32::from_le_bytes([l[0], l[1], l[2], l[3]]),
        u32::from_le_bytes([l[4], l[5], l[6], l[7]]),
        u32::from_le_bytes([l[8], l[9], l[10], l[11]]),
        u32::from_le_bytes([l[12], l[13], l[14], l[15]]),
    ]
}

// The first colour of a half, and the second.
pub fn first(w: u64) -> u16
    ensures { result ≡ bits 15 0 w }
{
    (w % 65536) as u16
}

pub fn second(w: u64) -> u16
    ensures { result ≡ bits 31 16 w }
{
    (w / 65536 % 65536) as u16
}

// 1 where the last colour is transparent: alpha is read, and there are three.
fn clear(f: u16, alpha: bool) -> u16
    requires { f ≤ 1 }
    ensures { result ≡ cond alpha (1 - f) 0 }
{
    if alpha { 1 - f } else { 0 }
}

// Colours without their top bytes.
#[inline(always)]
pub(crate) fn hues(c: [u32; 4]) -> [u32; 4]
    ensures { result ≡ build 4 (λ k. get_or c k 0 % 0x1000000) }
{
    let mut out = [0u32; 4];
    for i in 0..4 {
        out[i] = c[i] % 0x1000000;
    }
    out
}

// The four colours of a half: four where the first is above the second or `always`, and else three and black, which `alpha` makes
// transparent. It is made part of each block's code, since else the colours would be handed on in memory. There is no branch on the order
// of the two, which in pictures would often be foretold wrongly.
#[inline(always)]
pub(crate) fn palette(w: u64, always: bool, alpha: bool) -> [u32; 4]
    ensures { result ≡ palette_in_lem always alpha w }
{
    let p = first(w);
    let q = second(w);
    let f = is_four(always, p, q);
    words(lanes(f, clear(f, alpha), p, q))
}

// Those of BC1: `alpha` makes the last of three transparent.
#[inline(always)]
pub fn palette_in(w: u64, alpha: bool) -> [u32; 4]
    ensures { result ≡ palette_in_lem false alpha w }
{
    palette(w, false, alpha)
}

// The sixteen pixels of a BC1 block, opaque or with one bit of alpha. A flag says which and no enum, since `bc1_pixel`, by which the pixels
// are promised, takes it.
pub fn bc1_block(d: &[u8], alpha: bool) -> [u32; 16]
    requires { 8 ≤ length d.now }
    ensures { result ≡ tile (bc1_pixel false alpha) d.now }
{
    let w = half_word(d);
    picks::picked(w / 0x100000000, palette_in(w, alpha))
}
