// Which row comes first, by the key and value data of KTX 1 and KTX 2. crates/rules/specs/Keys.antt says what is told.
ghost use Rattle.std.specs.Prelude.{cond, ◌≡◌, ◌<◌, ◌≤◌, length};
ghost use Rattle.rules.specs.Keys.{is_orientation_lem, rows_by, rows_told_lem, rows_in_lem, orientation_of};
ghost use Rattle.rules.specs.declared.Orientation.TheVariants.{Untold};

use super::formats;
use rules::Orientation;

// The bytes of a KTX file: whether it is KTX 2, and whether its words have the greatest byte first.
#[derive(Clone, Copy)]
pub struct Pairs<'a> {
    pub second: bool,
    pub order: bool,
    pub d: &'a [u8],
}

impl<'a> Pairs<'a> {
    // Whether the key of an entry at a byte is the one that tells.
    #[tactic(auto, unfolding(rules::specs::Keys::is_orientation_lem))]
    fn is_orientation(self, at: usize) -> bool
        requires { at < 0x10000000000 }
        ensures { result ≡ is_orientation_lem self.entry.d.now at }
    {
        (formats::has4(self.d, at, 0x4B54586F) || formats::has4(self.d, at, 0x4B54584F))
            && formats::has4(self.d, at + 4, 0x7269656E)
            && formats::has4(self.d, at + 8, 0x74617469)
            && formats::has4(self.d, at + 11, 0x696F6E00)
    }

    // What four bytes say, which are the one or the other.
    fn rows_by(self, at: usize, down: usize, up: usize) -> Orientation
        requires { at < 0x20000000000 }
        ensures { result ≡ rows_by self.entry.d.now at down up }
    {
        if formats::has4(self.d, at, down) {
            Orientation::TopDown
        } else if formats::has4(self.d, at, up) {
            Orientation::BottomUp
        } else {
            Orientation::Untold
        }
    }

    // What the value behind that key says.
    #[tactic(auto, unfolding(rules::specs::Keys::rows_told_lem))]
    fn rows_told(self, at: usize, size: usize) -> Orientation
        requires { at < 0x10000000000 }
        ensures { result ≡ rows_told_lem self.entry.second self.entry.d.now at size }
    {
        if self.second {
            if size < 17 {
                return Orientation::Untold;
            }
            return self.rows_by(at + 13, 0x6E007264, 0x6E007275);
        }
        if size < 22 {
            return Orientation::Untold;
        }
        self.rows_by(at + 18, 0x2C543D64, 0x2C543D75)
    }

    // What an entry says, or what the entries before it said.
    fn entry_told(self, at: usize, size: usize, told: Orientation) -> Orientation
        requires { at < 0x10000000000 }
        ensures { result ≡ cond (is_orientation_lem self.entry.d.now at) (rows_told_lem self.entry.second self.entry.d.now at size) told }
    {
        if self.is_orientation(at) {
            self.rows_told(at, size)
        } else {
            told
        }
    }

    // What the entries from one byte up to another say.
    fn rows_in(self, start: usize, stop: usize) -> Orientation
        requires { (start ≤ stop) × (stop ≤ length self.d.now) × (stop < 0x400000000) }
        ensures { result ≡ rows_in_lem self.entry.second self.entry.order self.entry.d.now stop (length self.entry.d.now) start Untold }
    {
        let mut at = start;
        let mut told = Orientation::Untold;
        for _ in 0..self.d.len() {
            if at == stop {
                return told;
            }
            if stop < at + 4 {
                return Orientation::Untold;
            }
            let size = formats::word(self.order, self.d, at);
            let whole = size.next_multiple_of(4);
            if stop - (at + 4) < whole {
                return Orientation::Untold;
            }
            told = self.entry_told(at + 4, size, told);
            at = at + 4 + whole;
        }
        Orientation::Untold
    }

    // Which row comes first, by so many bytes of key and value data from a start on.
    #[tactic(auto, unfolding(rules::specs::Keys::orientation_of))]
    pub fn orientation(self, start: usize, size: usize) -> Orientation
        requires { (start < 0x100000000) × (size < 0x100000000) }
        ensures { result ≡ orientation_of self.entry.second self.entry.order self.entry.d.now start size }
    {
        if self.d.len() < start {
            return Orientation::Untold;
        }
        if self.d.len() - start < size {
            return Orientation::Untold;
        }
        self.rows_in(start, start + size)
    }
}
