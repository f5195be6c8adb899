// A BC7 block: all eight modes are one reading, by the record of the mode.
#![tactic(auto)]

mod bptc;
mod endpoints;
pub mod rest;
mod row;

ghost use Rattle.std.specs.Prelude.{◌≡◌, cond, ℕ, ◌-◌, ◌*◌, ◌/◌, ◌%◌, ◌^◌, ◌<◌, ◌≤◌, eqb, length, get_or, replicate};
ghost use Rattle.rules.specs.Notation.{build};
ghost use Rattle.rules.specs.Places.{tile};
ghost use Rattle.rules.specs.Bptc.{weights_of};
ghost use Rattle.rules.specs.Bc7.{rotated, pixel_in, mode_at, pixel_of, bc7_pixel};
ghost use Rattle.bc7.specs.rest.Whole.{whole, width_by, passed_by};
ghost use Rattle.bc7.specs.Shaded.{shaded};

use endpoints::{Ends, Front};
use pixel::color;
use rest::Rest;
use row::Row;

// The weights of sixteen indices of b bits, the first of which stands lowest.
fn weights(v: u64, b: usize, mask: u64) -> [u8; 16]
    requires { (2 ≤ b) × (b ≤ 4) }
    ensures { result ≡ build 16 (λ i. get_or (weights_of b) (v / 2 ^ passed_by b mask i % 2 ^ width_by b mask i) 0) }
{
    bptc::weigh(rest::indices(v, b, mask), b)
}

// The weights by a second index, or the first ones where there is none.
fn second_weights(r: Rest, row: Row, mask: u64, first: [u8; 16]) -> [u8; 16]
    ensures { result ≡ cond (eqb row.mode.second 0) first (build 16 (λ i. get_or (weights_of row.mode.second)
        (whole r / 2 ^ (16 * row.mode.index - row.mode.subsets) % 2 ^ 64
        / 2 ^ passed_by row.mode.second mask i % 2 ^ width_by row.mode.second mask i) 0)) }
{
    let k = row.mode;
    if k.second == 0 {
        return first;
    }
    let q = r.past(16 * k.index - k.subsets);
    weights(q.word(), k.second, mask)
}

// The weights of colour, or of alpha: the index selection changes the two about. It is a number, as a block stores it and
// `pixel_in` (crates/rules) compares it.
fn chosen(s: u8, a: [u8; 16], b: [u8; 16]) -> [u8; 16]
    ensures { result ≡ cond (eqb s 0) a b }
{
    if s == 0 {
        return a;
    }
    b
}

// The pixel of four bytes, alpha changed about with a colour.
fn turned(t: u8, a: u32, r: u32, g: u32, b: u32) -> u32
    requires { (a < 256) × (r < 256) × (g < 256) × (b < 256) }
    ensures { result ≡ rotated t a r g b }
{
    match t {
        1 => color::color(a, g, b, r),
        2 => color::color(r, a, b, g),
        3 => color::color(r, g, a, b),
        _ => color::color(r, g, b, a),
    }
}

// Sixteen pixels out of the endpoints, the subset of each and its weights.
fn shade(t: u8, layout: u64, e: Ends, colour: [u8; 16], alpha: [u8; 16]) -> [u32; 16]
    requires { (i : ℕ) → (get_or colour i 0 ≤ 64) × (get_or alpha i 0 ≤ 64) }
    ensures { result ≡ build 16 (λ i. shaded t e (layout / 2 ^ (2 * i) % 4) (get_or colour i 0) (get_or alpha i 0)) }
{
    let red = e.red;
    let green = e.green;
    let blue = e.blue;
    let clear = e.alpha;
    let mut out = [0u32; 16];
    for i in 0..16 {
        let s = ((layout >> (2 * i)) % 4) as usize;
        let x = 2 * s;
        let y = x + 1;
        let c = colour[i];
        let r = bptc::blend(red[x], red[y], c);
        let g = bptc::blend(green[x], green[y], c);
        let b = bptc::blend(blue[x], blue[y], c);
        let a = bptc::blend(clear[x], clear[y], alpha[i]);
        out[i] = turned(t, a, r, g, b);
    }
    out
}

// The sixteen pixels of a block of mode m.
fn in_mode(r: Rest, m: usize) -> [u32; 16]
    requires { m < 8 }
    ensures { result ≡ build 16 (pixel_in (whole r) m (mode_at m)) }
{
    let row = Row::of_mode(m);
    let k = row.mode;
    let h = Front::read(r, m, row);
    let e = Ends::read(h.rest, row);
    let layout = bptc::layout(k.subsets, usize::from(h.partition));
    let mask = layout / 4294967296;
    let left = e.rest;
    let first = weights(left.word(), k.index, mask);
    let second = second_weights(left, row, mask, first);
    shade(
        h.rotation,
        layout,
        e,
        chosen(h.selection, first, second),
        chosen(h.selection, second, first),
    )
}

// A block without a mode.
fn nothing() -> [u32; 16]
    ensures { result ≡ replicate 16 0 }
{
    [0u32; 16]
}

// The sixteen pixels of a block in two words.
pub fn of_words(r: Rest) -> [u32; 16]
    ensures { result ≡ build 16 (pixel_of (whole r)) }
{
    let m = bptc::zeros_below((r.lo % 256) as u8);
    if 7 < m {
        return nothing();
    }
    in_mode(r, m)
}

// The sixteen pixels of a block.
pub fn bc7_block(d: &[u8]) -> [u32; 16]
    requires { 16 ≤ length d.now }
    ensures { result ≡ tile bc7_pixel d.now }
{
    of_words(Rest::of_block(d))
}
