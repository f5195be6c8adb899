// The header of a KTX 1 file. Its words and their places are in crates/rules/specs/Ktx1.antt.
ghost use Rattle.std.specs.Prelude.{◌≡◌, ◌≤◌, length};
ghost use Rattle.rules.specs.FileFormats.{known};
ghost use Rattle.rules.specs.Ktx1.{gl_rows, ktx1_as, ktx1_in, ktx1_of};

use super::formats;
use super::keys::Pairs;
use rules::{Container, Format, Layout, Refusal};

// OpenGL's numbers.
const ROWS: [(usize, Format, bool); 25] = [
    (0x8D64, Format::Etc1, false),
    (0x9270, Format::EacR, false),
    (0x9271, Format::EacRSigned, false),
    (0x9272, Format::EacRg, false),
    (0x9273, Format::EacRgSigned, false),
    (0x9274, Format::Etc2Rgb, false),
    (0x9275, Format::Etc2Rgb, true),
    (0x9276, Format::Etc2Rgba1, false),
    (0x9277, Format::Etc2Rgba1, true),
    (0x9278, Format::Etc2Rgba8, false),
    (0x9279, Format::Etc2Rgba8, true),
    (0x83F0, Format::Bc1, false),
    (0x83F1, Format::Bc1Alpha, false),
    (0x83F3, Format::Bc3, false),
    (0x8C4C, Format::Bc1, true),
    (0x8C4D, Format::Bc1Alpha, true),
    (0x8C4F, Format::Bc3, true),
    (0x8E8C, Format::Bc7, false),
    (0x8E8D, Format::Bc7, true),
    (0x83F2, Format::Bc2, false),
    (0x8C4E, Format::Bc2, true),
    (0x8DBB, Format::Bc4, false),
    (0x8DBC, Format::Bc4Signed, false),
    (0x8DBD, Format::Bc5, false),
    (0x8DBE, Format::Bc5Signed, false),
];

// What OpenGL's number stands for.
fn gl_format(number: usize) -> Option<(Format, bool)>
    ensures { result ≡ known gl_rows number }
{
    formats::known_row(&ROWS, number)
}

// The rest of the header, once its format is known.
#[tactic(auto, unfolding(rules::specs::Ktx1::ktx1_as))]
fn header_as(known: Option<(Format, bool)>, order: bool, d: &[u8]) -> Result<Layout, Refusal>
    requires { 64 ≤ length d.now }
    ensures { result ≡ ktx1_as known order d.now }
{
    let (format, srgb) = known.ok_or(Refusal::UnknownFormat)?;
    let size = formats::word(order, d, 60);
    let pairs = Pairs {
        second: false,
        order,
        d,
    };
    Ok(Layout {
        container: Container::Ktx1,
        format,
        srgb,
        width: formats::word(order, d, 36),
        height: formats::word(order, d, 40),
        levels: formats::one_at_least(formats::word(order, d, 56)),
        big_endian: order,
        orientation: pairs.orientation(64, size),
        start: 64 + size,
        agrees: true,
    })
}

// The header in a byte order.
#[tactic(auto, unfolding(rules::specs::Ktx1::ktx1_in))]
fn header_in(order: bool, d: &[u8]) -> Result<Layout, Refusal>
    requires { 64 ≤ length d.now }
    ensures { result ≡ ktx1_in order d.now }
{
    let depth = formats::word(order, d, 44);
    let layers = formats::word(order, d, 48);
    let faces = formats::word(order, d, 52);
    if !formats::is_flat(depth, layers, faces) {
        return Err(Refusal::NotFlat);
    }
    header_as(gl_format(formats::word(order, d, 28)), order, d)
}

// The header.
#[tactic(auto, unfolding(rules::specs::Ktx1::ktx1_of))]
pub fn header(d: &[u8]) -> Result<Layout, Refusal>
    ensures { result ≡ ktx1_of d.now }
{
    if d.len() < 64 {
        return Err(Refusal::HeaderCut);
    }
    match numbers::big4(d, 12) {
        0x04030201 => header_in(true, d),
        0x01020304 => header_in(false, d),
        _ => Err(Refusal::UnknownVersion),
    }
}
