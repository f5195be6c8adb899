// The numbers in which signed and unsigned values differ.
ghost use Rattle.std.specs.Prelude.{◌≡◌};
ghost use Rattle.rules.specs.Whole.{least, most, added};

// Those of the one kind or of the other.
#[derive(Clone, Copy)]
pub struct Span {
    pub signed: bool,
    // the least and the most of the values
    pub low: i16,
    pub high: i16,
    // what makes a value no less than 0
    pub up: u16,
    pub ghost from: { low ≡ least signed },
    pub ghost to: { high ≡ most signed },
    pub ghost raised: { up ≡ added signed },
}
