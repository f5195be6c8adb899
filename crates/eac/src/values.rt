// The whole value of a pixel of an EAC channel, eleven bits, of what its block says: the middle, the multiplier and a step; and what is
// made of it, a byte or sixteen bits.
ghost use Rattle.std.specs.Prelude.{◌≡◌, ◌/◌, ◌<◌, false, T, pos, ◌+ℤ◌, ◌*ℤ◌, if◌then◌else◌, int_lt, unsigned_abs};
ghost use Rattle.std.specs.Int.Signed.{mag, non_neg};
ghost use Rattle.rules.specs.Channels.{signed_base, multiplier};
ghost use Rattle.rules.specs.Whole.{least, most, between, middle, added, sixteen as sixteen_of};
ghost use Rattle.eac.specs.values.Spans.{Spans};

pub use super::span::Span;

// The signed base: a byte as two's complement, where -128 is read as -127.
fn signed_byte(b: u8) -> i16
    ensures { result ≡ signed_base b }
{
    i16::from(b.cast_signed()).max(-127)
}

// The value in the middle of a block's, to which steps are added: 8 * b0 + 4, or 8 times the signed base.
pub fn middle_of(b: u8, signed: bool) -> i16
    ensures { (result ≡ middle signed b) × (mag result < 4096) }
{
    if signed {
        8 * signed_byte(b)
    } else {
        4 + 8 * i16::from(b)
    }
}

// What a step is multiplied by: 8 times the multiplier, or 1 where that is 0.
pub fn times_of(m: u8) -> u8
    requires { m < 16 }
    ensures { (result ≡ multiplier m) × (result < 121) }
{
    if m == 0 { 1 } else { 8 * m }
}

// The least of the values.
fn least_of(signed: bool) -> i16
    ensures { result ≡ least signed }
{
    if signed { -1023 } else { 0 }
}

// The most of them.
fn most_of(signed: bool) -> i16
    ensures { result ≡ most signed }
{
    if signed { 1023 } else { 2047 }
}

// The whole value that a step gives, clamped: by two steps, each of which is one instruction for eight values.
pub fn eac_whole(base: i16, m: u8, s: i16, low: i16, high: i16) -> i16
    requires { (mag base < 4096) × (m < 121) × (mag s < 16) × (int_lt high low ≡ false) }
    ensures { result ≡ between low high (base +ℤ pos m *ℤ s) }
{
    low.max(base + i16::from(m) * s).min(high)
}

// What makes a value no less than 0.
fn added_of(signed: bool) -> u16
    ensures { result ≡ added signed }
{
    if signed { 1023 } else { 0 }
}

// Those of signed or of unsigned values. A reader of many blocks makes them once, before its loop: eight lanes of each are then made
// once too.
pub fn span_of(signed: bool) -> Span
    ensures { (result.signed ≡ signed) × Spans result }
{
    Span {
        signed,
        low: least_of(signed),
        high: most_of(signed),
        up: added_of(signed),
    }
}

// A value with as much added. They are two numbers and no struct, since values come sixteen in an array, and what is added but once.
fn raised(v: i16, up: u16) -> u16
    requires { (mag v < 2048) × (up < 2048) × T (non_neg (pos up +ℤ v)) }
    ensures { (pos result ≡ pos up +ℤ v) × (result < 4096) }
{
    (up as i16 + v) as u16
}

// The byte of a value, in the type of values.
pub fn byte_of(v: i16, up: u16) -> i16
    requires { (mag v < 2048) × (up < 2048) × T (non_neg (pos up +ℤ v)) }
    ensures { result ≡ pos (unsigned_abs (pos up +ℤ v) / 8) }
{
    (raised(v, up) / 8) as i16
}

// A value as sixteen bits, a negative one in two's complement.
pub fn sixteen(v: i16, up: u16) -> u16
    requires { (mag v < 2048) × (up < 2048) × T (non_neg (pos up +ℤ v)) }
    ensures { result ≡ sixteen_of v }
{
    raised(v, up).wrapping_sub(up)
}
