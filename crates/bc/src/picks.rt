// What the bits of a word pick for each of the sixteen pixels, row by row: one of N, by the word's least digit to the base N, and the first
// pixel's digit is the lowest. N is a power of two where these are called, so that a digit is a few bits.
ghost use Rattle.std.specs.Prelude.{◌≡◌, ℕ, ◌+◌, ◌/◌, ◌%◌, ◌^◌, ◌≤◌, ◌<◌, get_or};
ghost use Rattle.rules.specs.Notation.{build};

pub fn picked<const N: usize>(w: u64, set: [u32; N]) -> [u32; 16]
    requires { 0 < N }
    ensures { result ≡ build 16 (λ k. get_or set.entry (w / N ^ k % N) 0) }
{
    let mut l = w;
    let mut out = [0u32; 16];
    for i in 0..16 {
        out[i] = set[(l % N as u64) as usize];
        l /= N as u64;
    }
    out
}

// The same with what a second word picks of a second set added.
pub fn both<const M: usize, const N: usize>(
    a: u64,
    tops: [u32; M],
    b: u64,
    rest: [u32; N],
) -> [u32; 16]
    requires bases { (0 < M) × (0 < N) }
    requires sums { (j k : ℕ) → get_or tops j 0 + get_or rest k 0 < 2 ^ 32 }
    ensures { result ≡ build 16 (λ k. get_or tops.entry (a / M ^ k % M) 0 + get_or rest.entry (b / N ^ k % N) 0) }
{
    let mut l = a;
    let mut m = b;
    let mut out = [0u32; 16];
    for i in 0..16 {
        out[i] = tops[(l % M as u64) as usize] + rest[(m % N as u64) as usize];
        l /= M as u64;
        m /= N as u64;
    }
    out
}
