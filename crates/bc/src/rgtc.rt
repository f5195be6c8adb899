// BC4 and BC5: a half of eight values for red, or one for red and one for green. The values are BC3's alphas, of bytes or of signed ones.
ghost use Rattle.std.specs.Prelude.{◌≡◌, true, ℕ, ◌+◌, ◌*◌, ◌/◌, ◌%◌, ◌≤◌, ◌<◌, min, length, get_or};
ghost use Rattle.rules.specs.Notation.{build};
ghost use Rattle.rules.specs.Places.{tile};
ghost use Rattle.rules.specs.Desktop.{alpha_index_in};
ghost use Rattle.rules.specs.Rgtc.{greatest as greatest_of, endpoint as endpoint_of, values_in_lem, bc4_pixel, bc5_pixel};

use super::{alphas, bc1, picks};

// The greatest value: -127 to 127 are 0 to 254.
fn greatest(signed: bool) -> u32
    ensures { (result ≡ greatest_of signed) × (result < 256) }
{
    if signed { 254 } else { 255 }
}

// A signed value as its byte, 127 above it; -128 is read as -127.
fn moved(b: u8) -> u8
    ensures { result ≡ endpoint_of true b }
{
    if b == 128 {
        return 0;
    }
    b.wrapping_add(127)
}

// A value as its byte.
fn endpoint(signed: bool, b: u8) -> u8
    ensures { result ≡ endpoint_of signed b }
{
    if signed { moved(b) } else { b }
}

// The eight values as bytes of a channel, whose lowest bit is `unit`, above `rest`: done for eight in place of sixteen. Of the alphas only
// the 255 is above the greatest value.
fn lit(a: [u32; 8], top: u32, unit: u32, rest: u32) -> [u32; 8]
    requires { (top < 256) × (unit ≤ 0x10000) × (rest ≤ 0xFF000000) }
    ensures { result ≡ build 8 (λ k. min (get_or a k 0) top * unit + rest) }
{
    let mut out = [0u32; 8];
    for i in 0..8 {
        out[i] = a[i].min(top) * unit + rest;
    }
    out
}

// The eight values of a half, in a channel.
fn values_in(signed: bool, w: u64, unit: u32, rest: u32) -> [u32; 8]
    requires { (unit ≤ 0x10000) × (rest ≤ 0xFF000000) }
    ensures { result ≡ build 8 (λ k. get_or (values_in_lem signed w) k 0 * unit + rest) }
{
    let [first, second, ..] = w.to_le_bytes();
    let eight = alphas::alphas(endpoint(signed, first), endpoint(signed, second));
    lit(eight, greatest(signed), unit, rest)
}

// The sixteen pixels of a BC4 block. A flag says whether values are signed and no enum, here and in BC5, since `bc4_pixel` and `bc5_pixel`,
// by which the pixels are promised, take it.
pub fn bc4_block(signed: bool, d: &[u8]) -> [u32; 16]
    requires { 8 ≤ length d.now }
    ensures { result ≡ tile (bc4_pixel signed) d.now }
{
    let w = bc1::half_word(d);
    picks::picked(w / 0x10000, values_in(signed, w, 0x10000, 0xFF000000))
}

// The sixteen pixels of a BC5 block: red first, and green from byte 8 on.
pub fn bc5_block(signed: bool, d: &[u8]) -> [u32; 16]
    requires { 16 ≤ length d.now }
    ensures { result ≡ tile (bc5_pixel signed) d.now }
{
    let a = bc1::half_word(d);
    let b = bc1::half_word(&d[8..]);
    picks::both(
        a / 0x10000,
        values_in(signed, a, 0x10000, 0xFF000000),
        b / 0x10000,
        values_in(signed, b, 0x100, 0),
    )
}
