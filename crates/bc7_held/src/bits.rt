// Bits of lent bytes, lowest first: the core over a slice and a place, and a reader that holds both.
ghost use Rattle.std.specs.Prelude.{◌≡◌, ◌+◌, ◌*◌, ◌/◌, ◌%◌, ◌^◌, ◌<◌, ◌≤◌, get_or};
ghost use Rattle.rules.specs.Bits.{lacks as lacks_bits, refuses, bits_said, read_verdict, place_after_lem};
ghost use Rattle.bc7_held.specs.bits.Held.{ReadsBits};

// The byte at i, or 0 past the end.
fn byte_or_0(s: &[u8], i: usize) -> u8
    ensures { result ≡ get_or s.now i 0 }
{
    s.get(i).copied().unwrap_or(0)
}

// n bits of v from bit i on.
fn part(v: u32, i: u32, n: u32) -> u8
    requires { (i < 8) × (n ≤ 8) }
    ensures { result ≡ v / 2 ^ i % 2 ^ n }
{
    ((v >> i) % (1 << n)) as u8
}

// Whether n bits at the place are past the bytes, or past what a place can name.
pub fn lacks(s: &[u8], place: usize, n: usize) -> bool
    ensures { result ≡ lacks_bits s.now place n }
{
    match place.checked_add(n) {
        Some(end) => s.len() < end.div_ceil(8),
        None => true,
    }
}

// Whether a read of n bits at the place is refused.
#[tactic(auto, unfolding(rules::specs::Bits::refuses))]
pub fn refused(s: &[u8], place: usize, n: usize) -> bool
    ensures { result ≡ refuses s.now place n }
{
    8 < n || lacks(s, place, n)
}

// The n bits at the place, or none where the read is refused.
#[tactic(auto, using(laws::proofs::Refuse::allowed))]
pub fn bits_at(s: &[u8], place: usize, n: usize) -> Option<u8>
    ensures { bits_said result ≡ read_verdict s.now place n }
{
    if refused(s, place, n) {
        return None;
    }
    let at = place / 8;
    let pair = u16::from_le_bytes([byte_or_0(s, at), byte_or_0(s, at + 1)]);
    Some(part(u32::from(pair), (place % 8) as u32, n as u32))
}

// Where the place is after that read: kept where it is refused.
#[tactic(auto, using(laws::proofs::Refuse::allowed))]
pub fn place_after(s: &[u8], place: usize, n: usize) -> usize
    ensures { result ≡ place_after_lem s.now place n }
{
    if refused(s, place, n) {
        return place;
    }
    place + n
}

// A bit reader: it borrows the bytes, and holds the place of the next bit.
#[derive(Clone, Copy)]
pub struct BitReader<'a> {
    pub src: &'a [u8],
    pub place: usize,
}

impl<'a> BitReader<'a> {
    // A reader at the first bit.
    pub fn new(src: &'a [u8]) -> BitReader<'a>
        ensures { (result.src ≡ src.entry) × (result.place ≡ 0) }
    {
        BitReader { src, place: 0 }
    }

    // The place of the next bit.
    pub fn place(self) -> usize
        ensures { result ≡ self.entry.place }
    {
        self.place
    }

    // The next n bits, and the place moves past them; where that is refused the place is kept.
    pub fn read(&mut self, n: usize) -> Option<u8>
        ensures { ReadsBits self.old n result self.new }
    {
        let bits = bits_at(self.src, self.place, n);
        self.place = place_after(self.src, self.place, n);
        bits
    }
}

// What a read has found, and where the reader stands after it.
#[derive(Clone, Copy)]
pub struct Found {
    pub bits: Option<u8>,
    pub place: usize,
}

// One read of n bits by a reader that is made for it, at a place.
pub fn read_at(src: &[u8], at: usize, n: usize) -> Found
    ensures { (bits_said result.bits ≡ read_verdict src.now at n) × (result.place ≡ place_after_lem src.now at n) }
{
    let mut reader = BitReader { src, place: at };
    let bits = reader.read(n);
    Found {
        bits,
        place: reader.place(),
    }
}
