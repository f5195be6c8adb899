// The BC2 block of src/bcn/bc2.rs: four bits of alpha for each pixel, and four colours as BC3 has them.
ghost use Rattle.std.specs.Prelude.{◌≡◌, true, false, ℕ, ◌+◌, ◌*◌, ◌/◌, ◌%◌, ◌^◌, ◌≤◌, ◌<◌, length, get_or};
ghost use Rattle.rules.specs.Notation.{build};
ghost use Rattle.rules.specs.Places.{tile};
ghost use Rattle.rules.specs.Desktop.{colour_index, bc2_pixel, palette_in_lem};
ghost use Rattle.bc.specs.bc1.Lanes.{lane};

use super::bc1;

// Each pixel's alpha as its top byte, and its colour, row by row, by the words of the two halves. Sixteen times the top four bits and once
// more are those bits widened to eight. A loop of its own, since `picks::both` would pick sixteen top bytes from memory, where this takes
// one product.
fn both(a: u64, w: u64, hues: [u32; 4]) -> [u32; 16]
    requires { (k : ℕ) → get_or hues k 0 < 0x1000000 }
    ensures { result ≡ build 16 (λ k. a / 2 ^ (4 * k) % 16 * 0x11000000 + get_or hues (colour_index w k) 0) }
{
    let mut l = a;
    let mut m = (w / 0x100000000) as u32;
    let mut out = [0u32; 16];
    for i in 0..16 {
        out[i] = (l % 16) as u32 * 0x11000000 + hues[(m % 4) as usize];
        l /= 16;
        m /= 4;
    }
    out
}

// The sixteen pixels of a BC2 block: the alpha half first, and the colours, always four, from byte 8 on.
pub fn bc2_block(d: &[u8]) -> [u32; 16]
    requires { 16 ≤ length d.now }
    ensures { result ≡ tile bc2_pixel d.now }
{
    let a = bc1::half_word(d);
    let w = bc1::half_word(&d[8..]);
    both(a, w, bc1::hues(bc1::palette(w, true, false)))
}
