// The kind of a colour block, by its difference bit and its three sums.
#![tactic(auto)]

ghost use Rattle.std.specs.Prelude.{◌≡◌, ◌≤◌, length};
ghost use Rattle.rules.specs.Colour.{sum, beyond as is_beyond, kind_by_sums_lem, kind_of};

use rules::Kind;

// Whether base plus step, of one colour's byte, lies outside 0..31. The sum is taken with 4 added, so that it has no sign.
fn beyond(b: u8) -> bool
    ensures { result ≡ is_beyond (sum b) }
{
    let four_more = b / 8 + (b % 8 + 4) % 8;
    !matches!(four_more, 4..=35)
}

// The kind of a block that is read as if its difference bit were set, as in RGBA1: red goes before green before blue.
#[tactic(auto, unfolding(rules::specs::Colour::kind_by_sums_lem))]
pub fn kind_by_sums(d: &[u8]) -> Kind
    requires { 8 ≤ length d.now }
    ensures { result ≡ kind_by_sums_lem d.now }
{
    if beyond(d[0]) {
        return Kind::T;
    }
    if beyond(d[1]) {
        return Kind::H;
    }
    if beyond(d[2]) {
        return Kind::Planar;
    }
    Kind::Differential
}

// The kind of an ETC1 or ETC2 RGB block.
pub fn kind_of(d: &[u8]) -> Kind
    requires { 8 ≤ length d.now }
    ensures { result ≡ kind_of d.now }
{
    if d[3] / 2 % 2 == 1 {
        return kind_by_sums(d);
    }
    Kind::Individual
}
