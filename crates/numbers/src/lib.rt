// Numbers of two and of four bytes, read from a place of a slice and put there, in either order; and bytes put one after another.
// specs/Numbers.antt says what they are.
#![tactic(auto)]

ghost use Rattle.std.specs.Prelude.{◌≡◌, ◌∷◌, [], ◌+◌, ◌<◌, ◌≤◌, length};
ghost use Rattle.std.proofs.lemmas.List.Edits.{sets};
ghost use Rattle.numbers.specs.Numbers.{little, big, in_bytes, big_bytes};

// A byte as a wider number.
pub fn wide(b: u8) -> usize
    ensures { (result ≡ b) × (result < 256) }
{
    usize::from(b)
}

// The two bytes at a place, the least first.
#[tactic(auto, using(crate::proofs::Little::two))]
pub fn little2(d: &[u8], at: usize) -> usize
    requires { at + 2 ≤ length d.now }
    ensures { (result ≡ little 2 at d.now) × (result < 0x10000) }
{
    usize::from(u16::from_le_bytes([d[at], d[at + 1]]))
}

// The four bytes at a place, the least first.
#[tactic(auto, using(crate::proofs::Little::four_bytes))]
pub fn little4(d: &[u8], at: usize) -> usize
    requires { at + 4 ≤ length d.now }
    ensures { (result ≡ little 4 at d.now) × (result < 0x100000000) }
{
    u32::from_le_bytes([d[at], d[at + 1], d[at + 2], d[at + 3]]) as usize
}

// The two bytes at a place, the greatest first.
#[tactic(auto, using(crate::proofs::Big::two))]
pub fn big2(d: &[u8], at: usize) -> usize
    requires { at + 2 ≤ length d.now }
    ensures { (result ≡ big 2 at d.now) × (result < 0x10000) }
{
    usize::from(u16::from_be_bytes([d[at], d[at + 1]]))
}

// The four bytes at a place, the greatest first.
#[tactic(auto, using(crate::proofs::Big::four_bytes))]
pub fn big4(d: &[u8], at: usize) -> usize
    requires { at + 4 ≤ length d.now }
    ensures { (result ≡ big 4 at d.now) × (result < 0x100000000) }
{
    u32::from_be_bytes([d[at], d[at + 1], d[at + 2], d[at + 3]]) as usize
}

// A number as a byte.
pub fn byte(n: u32) -> u8
    requires { n < 256 }
    ensures { result ≡ n }
{
    n as u8
}

// Puts a byte.
pub fn put1(a: u8, out: &mut [u8], at: usize)
    requires { at < length out.old }
    ensures { out.new ≡ sets out.old at (a ∷ []) }
{
    out[at] = a;
}

// Puts two bytes.
pub fn put2(a: u8, b: u8, out: &mut [u8], at: usize)
    requires { at + 2 ≤ length out.old }
    ensures { out.new ≡ sets out.old at (a ∷ b ∷ []) }
{
    out[at..at + 2].copy_from_slice(&[a, b]);
}

// Puts four bytes.
#[tactic(auto, using(crate::proofs::Stores::copied))]
pub fn put4(a: u8, b: u8, c: u8, d: u8, out: &mut [u8], at: usize)
    requires { at + 4 ≤ length out.old }
    ensures { out.new ≡ sets out.old at (a ∷ b ∷ c ∷ d ∷ []) }
{
    out[at..at + 4].copy_from_slice(&[a, b, c, d]);
}

// Puts a number in two bytes, the least first.
#[tactic(auto, using(crate::proofs::Stores::copied), unfolding(crate::specs::Numbers::in_bytes))]
pub fn put_little2(n: u32, out: &mut [u8], at: usize)
    requires { at + 2 ≤ length out.old }
    ensures { out.new ≡ sets out.old at (in_bytes 2 n) }
{
    out[at..at + 2].copy_from_slice(&((n % 0x10000) as u16).to_le_bytes());
}

// Puts a number in four bytes, the greatest first.
#[tactic(auto, using(crate::proofs::Stores::copied, crate::proofs::Big::fourth))]
pub fn put_big4(n: u32, out: &mut [u8], at: usize)
    requires { at + 4 ≤ length out.old }
    ensures { out.new ≡ sets out.old at (big_bytes 4 n) }
{
    out[at..at + 4].copy_from_slice(&n.to_be_bytes());
}
