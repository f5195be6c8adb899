// The header of a PKM file. Its bytes and their places are in crates/rules/specs/Pkm.antt.
ghost use Rattle.std.specs.Prelude.{◌≡◌, ◌≤◌, ◌<◌, length};
ghost use Rattle.rules.specs.FileFormats.{known};
ghost use Rattle.rules.specs.Pkm.{pkm_rows1, pkm_rows2, padded as padded_to, pkm_as, pkm_of};

use super::formats;
use rules::{Container, Format, Layout, Orientation, Refusal};

// The types of version 1.0 and 2.0.
const ROWS_1: [(usize, Format, bool); 1] = [(0, Format::Etc1, false)];

const ROWS_2: [(usize, Format, bool); 11] = [
    (0, Format::Etc1, false),
    (1, Format::Etc2Rgb, false),
    (3, Format::Etc2Rgba8, false),
    (4, Format::Etc2Rgba1, false),
    (5, Format::EacR, false),
    (6, Format::EacRg, false),
    (7, Format::EacRSigned, false),
    (8, Format::EacRgSigned, false),
    (9, Format::Etc2Rgb, true),
    (10, Format::Etc2Rgba8, true),
    (11, Format::Etc2Rgba1, true),
];

// What a type of version 1.0 stands for.
fn type_1(number: usize) -> Option<(Format, bool)>
    ensures { result ≡ known pkm_rows1 number }
{
    formats::known_row(&ROWS_1, number)
}

// What a type of version 2.0 stands for.
fn type_2(number: usize) -> Option<(Format, bool)>
    ensures { result ≡ known pkm_rows2 number }
{
    formats::known_row(&ROWS_2, number)
}

// A side, made up to whole blocks.
fn padded(side: usize) -> usize
    requires { side < 0x10000 }
    ensures { result ≡ padded_to side }
{
    side.next_multiple_of(4)
}

// The rest of the header, once its format is known.
#[tactic(auto, unfolding(rules::specs::Pkm::pkm_as))]
fn header_as(known: Option<(Format, bool)>, d: &[u8]) -> Result<Layout, Refusal>
    requires { 16 ≤ length d.now }
    ensures { result ≡ pkm_as known d.now }
{
    let (format, srgb) = known.ok_or(Refusal::UnknownFormat)?;
    let width = numbers::big2(d, 12);
    let height = numbers::big2(d, 14);
    Ok(Layout {
        container: Container::Pkm,
        format,
        srgb,
        width,
        height,
        levels: 1,
        big_endian: true,
        orientation: Orientation::Untold,
        start: 16,
        agrees: numbers::big2(d, 8) == padded(width) && numbers::big2(d, 10) == padded(height),
    })
}

// The header.
#[tactic(auto, unfolding(rules::specs::Pkm::pkm_of))]
pub fn header(d: &[u8]) -> Result<Layout, Refusal>
    ensures { result ≡ pkm_of d.now }
{
    if d.len() < 16 {
        return Err(Refusal::HeaderCut);
    }
    let number = numbers::big2(d, 6);
    match numbers::big2(d, 4) {
        0x3130 => header_as(type_1(number), d),
        0x3230 => header_as(type_2(number), d),
        _ => Err(Refusal::UnknownVersion),
    }
}
