// The kept bytes of a picture that arrives in pieces, followed by the new ones: one list, of which no copy is made.
ghost use Rattle.std.specs.Prelude.{◌≡◌, ◌+◌, ◌≤◌, length};
ghost use Rattle.rules.specs.Notation.{build, byte};
ghost use Rattle.rules.specs.Pieces.{padded};

// The kept bytes, of which the first `held` count, and the new ones.
#[derive(Clone, Copy)]
pub struct Arrived<'a> {
    pub kept: [u8; 15],
    pub held: usize,
    pub bytes: &'a [u8],
    pub ghost few: { held ≤ 15 },
}

impl Arrived<'_> {
    ghost use Rattle.pieces.specs.Arrived.{all_of};

    // Byte i of them, and 0 past their end.
    fn byte_at(&self, i: usize) -> u8
        ensures { result ≡ byte (all_of self.now) i }
    {
        if i < self.held {
            return self.kept[i];
        }
        self.bytes.get(i - self.held).copied().unwrap_or(0)
    }

    // The first sixteen of them: the block that began with the kept ones.
    pub fn first_block(&self) -> [u8; 16]
        ensures { result ≡ build 16 (byte (all_of self.now)) }
    {
        let mut out = [0u8; 16];
        for i in 0..16 {
            out[i] = self.byte_at(i);
        }
        out
    }

    // The n of them from number at on, with zeros behind: what is kept for the next piece.
    pub fn rest_of(&self, at: usize, n: usize) -> [u8; 15]
        requires { (n ≤ 15) × (at + n ≤ self.now.held + length self.now.bytes.now) }
        ensures { result ≡ padded (all_of self.now) at n }
    {
        let mut out = [0u8; 15];
        for i in 0..n {
            out[i] = self.byte_at(at + i);
        }
        out
    }
}
