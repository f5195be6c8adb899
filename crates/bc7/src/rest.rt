// The bits of a block in two words: what is left of them is shifted down, and a field is what stands lowest.
ghost use Rattle.std.specs.Prelude.{◌≡◌, ℕ, ◌+◌, ◌-◌, ◌*◌, ◌/◌, ◌%◌, ◌^◌, ◌<◌, ◌≤◌, length, get_or};
ghost use Rattle.rules.specs.Notation.{build};
ghost use Rattle.rules.specs.Bc7.{block_word};
ghost use Rattle.bc7.specs.rest.Whole.{whole, field_of, width_by, passed_by};

use bc::bc1;

// What is left of a block's bits, the next one lowest.
#[derive(Clone, Copy)]
pub struct Rest {
    pub lo: u64,
    pub hi: u64,
}

// Up to 24 fields of one width, and 0 after them.
#[derive(Clone, Copy)]
pub struct Fields {
    pub values: [u8; 24],
    pub width: usize,
    ghost fit: { (k : ℕ) → get_or values k 0 < 2 ^ width },
}

impl Rest {
    // The sixteen bytes of a block.
    pub fn of_block(d: &[u8]) -> Rest
        requires { 16 ≤ length d.now }
        ensures { whole result ≡ block_word d.now }
    {
        let lo = bc1::half_word(d);
        let hi = bc1::half_word(&d[8..]);
        Rest { lo, hi }
    }

    // What is left after n bits more.
    pub fn past(self, n: usize) -> Rest
        requires { n < 64 }
        ensures { whole result ≡ whole self / 2 ^ n }
    {
        Rest {
            lo: next_low(self.lo, self.hi, n),
            hi: self.hi >> n,
        }
    }

    // The next n bits.
    pub fn next(self, n: usize) -> u8
        requires { n ≤ 8 }
        ensures { result ≡ whole self % 2 ^ n }
    {
        lowest(self.lo, n)
    }

    // The next n bits, which are passed.
    pub fn take(&mut self, n: usize) -> u8
        requires { n ≤ 8 }
        ensures bits { result ≡ whole self.old % 2 ^ n }
        ensures passed { whole self.new ≡ whole self.old / 2 ^ n }
    {
        let bits = self.next(n);
        *self = self.past(n);
        bits
    }

    // The next 64 bits.
    pub fn word(self) -> u64
        ensures { result ≡ whole self % 2 ^ 64 }
    {
        self.lo
    }

    // The next count fields of b bits each, which are passed; the others are 0.
    pub fn several(&mut self, count: usize, b: usize) -> Fields
        requires { (count ≤ 24) × (b ≤ 8) }
        ensures by_index { (k : ℕ) → k < count → get_or result.values k 0 ≡ field_of (whole self.old) b k }
        ensures by_index_2 { (k : ℕ) → count ≤ k → get_or result.values k 0 ≡ 0 }
        ensures width { result.width ≡ b }
        ensures rest_value { whole self.new ≡ whole self.old / 2 ^ (count * b) }
    {
        let mut values = [0u8; 24];
        for i in 0..count {
            values[i] = self.take(b);
        }
        Fields { values, width: b }
    }
}

// The low word after n bits are passed.
fn next_low(lo: u64, hi: u64, n: usize) -> u64
    requires { n < 64 }
    ensures { result ≡ hi % 2 ^ n * 2 ^ (64 - n) + lo / 2 ^ n }
{
    ((hi << 1) << (63 - n)) + (lo >> n)
}

// The lowest n bits of a word.
fn lowest(v: u64, n: usize) -> u8
    requires { n ≤ 8 }
    ensures { result ≡ v % 2 ^ n }
{
    (v % (1 << n)) as u8
}

// Sixteen indices of b bits, one less where the mask has a bit.
pub fn indices(v: u64, b: usize, mask: u64) -> [u8; 16]
    requires { (1 ≤ b) × (b ≤ 8) }
    ensures { result ≡ build 16 (λ i. v / 2 ^ passed_by b mask i % 2 ^ width_by b mask i) }
{
    let mut w = v;
    let mut m = mask;
    let mut out = [0u8; 16];
    for i in 0..16 {
        let n = b - (m % 2) as usize;
        out[i] = lowest(w, n);
        w >>= n;
        m >>= 1;
    }
    out
}
