// The BC3 block of src/bcn/bc3.rs. Eight alphas and four colours first, and then two picks for each pixel. The alpha half alone goes into
// any channel of what stood there.
ghost use Rattle.std.specs.Prelude.{◌≡◌, true, false, ℕ, ◌+◌, ◌*◌, ◌/◌, ◌%◌, ◌≤◌, ◌<◌, length, get_or};
ghost use Rattle.rules.specs.Notation.{build};
ghost use Rattle.rules.specs.Places.{tile};
ghost use Rattle.rules.specs.Desktop.{alpha_index_in, colour_index, bc3_alpha, replaced, bc3_pixel, palette_in_lem};
ghost use Rattle.bc.specs.bc1.Lanes.{lane};

use super::{alpha_lanes, alphas, bc1, picks};

// The pixels with a channel replaced by the alpha half. Its three bits a pixel stand from bit 16 on, the first pixel's lowest.
pub fn alpha_onto(d: &[u8], channel: usize, px: [u32; 16]) -> [u32; 16]
    requires { (8 ≤ length d.now) × (channel < 4) }
    ensures { result ≡ build 16 (λ k. replaced channel (get_or px k 0) (bc3_alpha d.now (k % 4) (k / 4))) }
{
    let w = bc1::half_word(d);
    let eight = alphas::alphas_in(w);
    let mut l = w / 0x10000;
    let mut out = px;
    for i in 0..16 {
        out[i] = alphas::replace(channel, px[i], eight[(l % 8) as usize]);
        l /= 8;
    }
    out
}

// The alphas as top bytes, and the colours without theirs: done for eight and four in place of sixteen and sixteen.
fn tops(a: [u16; 16]) -> [u32; 8]
    ensures { result ≡ build 8 (λ k. get_or a k 0 % 256 * 0x1000000) }
{
    let mut out = [0u32; 8];
    for i in 0..8 {
        out[i] = u32::from(a[i] % 256) * 0x1000000;
    }
    out
}

// The sixteen pixels of a BC3 block: the alpha half first, and the colours, always four, from byte 8 on.
pub fn bc3_block(d: &[u8]) -> [u32; 16]
    requires { 16 ≤ length d.now }
    ensures { result ≡ tile bc3_pixel d.now }
{
    let a = bc1::half_word(d);
    let w = bc1::half_word(&d[8..]);
    let [first, second, ..] = a.to_le_bytes();
    picks::both(
        a / 0x10000,
        tops(alpha_lanes::all_alphas(first, second)),
        w / 0x100000000,
        bc1::hues(bc1::palette(w, true, false)),
    )
}
