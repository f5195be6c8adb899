// The EAC channels of src/etc/eac.rs. The unsigned and the signed reader differ only in the numbers that crates/eac gives, so one
// function serves both. A block has eight whole values of eleven bits, of which each pixel picks one. The byte is a last step of its
// own, taken of the eight, and so are the sixteen bits, taken of the picked (docs/DECISIONS.md).
#![tactic(auto)]

pub mod span;
pub mod values;

ghost use Rattle.std.specs.Prelude.{◌≡◌, ℕ, ◌+◌, ◌*◌, ◌/◌, ◌%◌, ◌^◌, ◌<◌, ◌≤◌, T, length, pos, ◌+ℤ◌, slice_index, slice_index_or};
ghost use Rattle.std.specs.Prelude.{unsigned_abs};
ghost use Rattle.std.specs.Int.Signed.{mag, non_neg};
ghost use Rattle.rules.specs.Notation.{build, byte};
ghost use Rattle.rules.specs.Pixel.{word};
ghost use Rattle.rules.specs.Places.{tile};
ghost use Rattle.rules.specs.Channels.{alpha_steps_lem, eac_byte, red_pixel, red_green_pixel, or_channel};
ghost use Rattle.rules.specs.Whole.{middle, eac_whole_lem, sixteen};
ghost use Rattle.eac.specs.Eights.{whole_of, eighth_of, number_at};

use etc_alpha::{channel, picks};
use pixel::color;
use span::Span;
use tables::consts;

// Sixteen bytes in the type that pixels are made in.
fn widened(bytes: [i16; 16]) -> [u32; 16]
    requires { (k : ℕ) → k < 16 → T (non_neg (slice_index_or bytes k (pos 0))) × (mag (slice_index_or bytes k (pos 0)) < 256) }
    ensures { result ≡ build 16 (λ k. unsigned_abs (slice_index_or bytes k (pos 0))) }
{
    let mut out = [0u32; 16];
    for i in 0..16 {
        out[i] = u32::from(bytes[i] as u16);
    }
    out
}

// The eight values of a block, of the value in their middle. The bytes and the table of steps are lent as they are, since a narrower type
// would ask more of callers; and the middle is a number with its bound beside it, since docs/CLAIMS.md names this function. Nothing here
// asks whether values are signed: a body without a branch is small enough to stand in each loop over blocks.
pub fn eight_wholes(d: &[u8], base: i16, span: Span, table: &[[i8; 8]; 16]) -> [i16; 8]
    requires in_bounds { (8 ≤ length d.now) × (table.now ≡ alpha_steps_lem) }
    requires base_value { (base ≡ middle span.signed (byte d.now 0)) × (mag base < 4096) }
    ensures { result ≡ build 8 (whole_of span.signed d.now) }
{
    let steps = channel::steps_in(table, picks::row_of(d[1]));
    let m = values::times_of(picks::multiplier_of(d[1]));
    let mut eight = [0i16; 8];
    for i in 0..8 {
        eight[i] = values::eac_whole(base, m, steps[i], span.low, span.high);
    }
    eight
}

// The byte of each of eight values. This and `narrowed` are two loops, since one over a closure is no plainer: they differ in size, in type
// and in what a turn gives, and `map` asks a clause of each turn and that its iterator fits in memory.
fn eighths(wholes: [i16; 8], up: u16) -> [i16; 8]
    requires { (up < 2048) × ((j : ℕ) → j < 8 → T (non_neg (pos up +ℤ slice_index_or wholes j (pos 0)))
        × (mag (slice_index_or wholes j (pos 0)) < 2048)) }
    ensures { result ≡ build 8 (λ j. pos (unsigned_abs (pos up +ℤ slice_index_or wholes j (pos 0)) / 8)) }
{
    let mut eight = [0i16; 8];
    for i in 0..8 {
        eight[i] = values::byte_of(wholes[i], up);
    }
    eight
}

// The byte of each of the eight values of a block: an eighth of the value, counted from the least.
fn eight_bytes(d: &[u8], base: i16, span: Span, table: &[[i8; 8]; 16]) -> [i16; 8]
    requires in_bounds { (8 ≤ length d.now) × (table.now ≡ alpha_steps_lem) }
    requires base_value { (base ≡ middle span.signed (byte d.now 0)) × (mag base < 4096) }
    ensures { result ≡ build 8 (λ j. pos (eighth_of span.signed d.now j)) }
{
    eighths(eight_wholes(d, base, span, table), span.up)
}

// The byte of each pixel, row by row, of eight.
fn eac_bytes(d: &[u8], eight: [i16; 8]) -> [u32; 16]
    requires { (8 ≤ length d.now) × ((j : ℕ) → j < 8 → T (non_neg (slice_index_or eight j (pos 0)))
        × (mag (slice_index_or eight j (pos 0)) < 256)) }
    ensures { result ≡ build 16 (λ k. unsigned_abs (slice_index_or eight (number_at d.now k) (pos 0))) }
{
    widened(picks::picked(d, eight))
}

// Sixteen values, each as sixteen bits.
fn narrowed(whole: [i16; 16], up: u16) -> [u16; 16]
    requires { (up < 2048) × ((k : ℕ) → k < 16 → T (non_neg (pos up +ℤ slice_index_or whole k (pos 0)))
        × (mag (slice_index_or whole k (pos 0)) < 2048)) }
    ensures { result ≡ build 16 (λ k. sixteen (slice_index_or whole k (pos 0))) }
{
    let mut out = [0u16; 16];
    for i in 0..16 {
        out[i] = values::sixteen(whole[i], up);
    }
    out
}

// The value of each pixel as sixteen bits, row by row, of the eight.
pub fn eac_sixteens(d: &[u8], span: Span, eight: [i16; 8]) -> [u16; 16]
    requires { (8 ≤ length d.now) × (eight ≡ build 8 (whole_of span.signed d.now)) }
    ensures { result ≡ build 16 (λ k. sixteen (eac_whole_lem span.signed d.now (k % 4) (k / 4))) }
{
    narrowed(picks::picked(d, eight), span.up)
}

// Opaque pixels of sixteen bytes of red and sixteen of green, with no blue.
fn red_green(red: [u32; 16], green: [u32; 16]) -> [u32; 16]
    requires { (k : ℕ) → k < 16 → (slice_index red k < 256) × (slice_index green k < 256) }
    ensures { result ≡ build 16 (λ k. word 255 (slice_index red k) (slice_index green k) 0) }
{
    let mut out = [0u32; 16];
    for i in 0..16 {
        out[i] = color::color(red[i], green[i], 0, 255);
    }
    out
}

// An EAC R block: red, with green and blue 0, opaque.
pub fn eacr_block(d: &[u8], span: Span, table: &[[i8; 8]; 16]) -> [u32; 16]
    requires { (8 ≤ length d.now) × (table.now ≡ alpha_steps_lem) }
    ensures { result ≡ tile (red_pixel span.signed) d.now }
{
    let base = values::middle_of(d[0], span.signed);
    red_green(eac_bytes(d, eight_bytes(d, base, span, table)), [0u32; 16])
}

// An EAC RG block: red from the first eight bytes and green from the next eight, with blue 0, opaque. What asks whether values are signed
// stands first, so that it is asked once.
pub fn eacrg_block(d: &[u8], span: Span, table: &[[i8; 8]; 16]) -> [u32; 16]
    requires { (16 ≤ length d.now) × (table.now ≡ alpha_steps_lem) }
    ensures { result ≡ tile (red_green_pixel span.signed) d.now }
{
    let half = &d[8..];
    let red_base = values::middle_of(d[0], span.signed);
    let green_base = values::middle_of(half[0], span.signed);
    let red = eight_bytes(d, red_base, span, table);
    let green = eight_bytes(half, green_base, span, table);
    red_green(eac_bytes(d, red), eac_bytes(half, green))
}

// What 1 in a channel is in the pixel word: channel 0 is blue, 1 green, 2 red and 3 alpha. It is a number, as C gives it and `or_channel`
// takes it.
fn unit_of(channel: usize) -> u32
    requires { channel < 4 }
    ensures { (result ≡ 256 ^ channel) × (result ≤ 256 ^ 3) }
{
    match channel {
        0 => 1,
        1 => 0x100,
        2 => 0x10000,
        _ => 0x1000000,
    }
}

// The pixels with the byte of each put into one channel by OR, so that no bit that stood there is lost.
pub fn eac_onto(d: &[u8], signed: bool, channel: usize, px: [u32; 16]) -> [u32; 16]
    requires { (8 ≤ length d.now) × (channel < 4) }
    ensures { result ≡ build 16 (λ k. or_channel channel (slice_index px k) (eac_byte signed d.now (k % 4) (k / 4))) }
{
    let table = consts::alpha_steps();
    let base = values::middle_of(d[0], signed);
    let eight = eight_bytes(d, base, values::span_of(signed), &table);
    let bytes = eac_bytes(d, eight);
    let unit = unit_of(channel);
    let mut out = px;
    for i in 0..16 {
        out[i] = px[i] | bytes[i] * unit;
    }
    out
}
