// The alphas of a BC3 half (src/bcn/bc3.rs): the eight that its first two bytes make, and a byte put in place of a channel.
ghost use Rattle.std.specs.Prelude.{◌≡◌, cond, ℕ, ◌/◌, ◌≤◌, ◌<◌, ltb, get_or};
ghost use Rattle.rules.specs.Desktop.{alphas as alphas_of, alphas_in_lem, replaced};

use std::hint::select_unpredictable;

// A seventh or a fifth of a sum, by a product and a shift, and by no branch, which in pictures would often be foretold wrongly.
fn share(sevenths: bool, sum: u32) -> u32
    requires { sum ≤ 1785 }
    ensures { result ≡ cond sevenths (sum / 7) (sum / 5) }
{
    sum * select_unpredictable(sevenths, 9363, 13108) / 0x10000
}

// A seventh of a sum, or what stands there beside fifths.
fn share_or(sevenths: bool, sum: u32, fixed: u32) -> u32
    requires { (sum ≤ 1785) × (fixed < 256) }
    ensures { result ≡ cond sevenths (sum / 7) fixed }
{
    sum * select_unpredictable(sevenths, 9363, 0) / 0x10000
        + select_unpredictable(sevenths, 0, fixed)
}

// The eight alphas, by index: the two, and the sevenths between them; or the fifths, none and all. Two parts more of the first make
// sevenths of what were fifths.
pub fn alphas(a: u8, b: u8) -> [u32; 8]
    ensures { result ≡ alphas_of (ltb b a) a b }
{
    let p = u32::from(a);
    let q = u32::from(b);
    let sevenths = a > b;
    let more = select_unpredictable(sevenths, 2 * p, 0);
    [
        p,
        q,
        share(sevenths, 4 * p + q + more),
        share(sevenths, 3 * p + 2 * q + more),
        share(sevenths, 2 * p + 3 * q + more),
        share(sevenths, p + 4 * q + more),
        share_or(sevenths, 2 * p + 5 * q, 0),
        share_or(sevenths, p + 6 * q, 255),
    ]
}

// The eight alphas of a half, each a byte.
pub fn alphas_in(w: u64) -> [u32; 8]
    ensures { (result ≡ alphas_in_lem w) × ((k : ℕ) → get_or result k 0 < 256) }
{
    let [first, second, ..] = w.to_le_bytes();
    alphas(first, second)
}

// A word with the byte of a channel replaced. The channel is a number, as C gives it and `replaced` takes it. By arms, since an array of
// bytes with the channel as its index may be stored to the stack for each pixel (docs/PERFORMANCE.md, decode_bc3_alpha).
pub fn replace(channel: usize, p: u32, b: u32) -> u32
    requires { (b < 256) × (channel < 4) }
    ensures { result ≡ replaced channel p b }
{
    match channel {
        0 => p / 0x100 * 0x100 + b,
        1 => p / 0x10000 * 0x10000 + b * 0x100 + p % 0x100,
        2 => p / 0x1000000 * 0x1000000 + b * 0x10000 + p % 0x10000,
        _ => b * 0x1000000 + p % 0x1000000,
    }
}
