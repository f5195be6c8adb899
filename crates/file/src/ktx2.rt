// The header of a KTX 2 file. Its numbers and their places are in crates/rules/specs/Ktx2.antt.
ghost use Rattle.std.specs.Prelude.{◌≡◌, ◌≤◌, length};
ghost use Rattle.rules.specs.FileFormats.{known};
ghost use Rattle.rules.specs.Ktx2.{vk_rows, ktx2_as, ktx2_of};

use super::formats;
use super::keys::Pairs;
use rules::{Container, Format, Layout, Refusal};

// Vulkan's numbers.
const ROWS: [(usize, Format, bool); 24] = [
    (131, Format::Bc1, false),
    (132, Format::Bc1, true),
    (133, Format::Bc1Alpha, false),
    (134, Format::Bc1Alpha, true),
    (135, Format::Bc2, false),
    (136, Format::Bc2, true),
    (137, Format::Bc3, false),
    (138, Format::Bc3, true),
    (139, Format::Bc4, false),
    (140, Format::Bc4Signed, false),
    (141, Format::Bc5, false),
    (142, Format::Bc5Signed, false),
    (145, Format::Bc7, false),
    (146, Format::Bc7, true),
    (147, Format::Etc2Rgb, false),
    (148, Format::Etc2Rgb, true),
    (149, Format::Etc2Rgba1, false),
    (150, Format::Etc2Rgba1, true),
    (151, Format::Etc2Rgba8, false),
    (152, Format::Etc2Rgba8, true),
    (153, Format::EacR, false),
    (154, Format::EacRSigned, false),
    (155, Format::EacRg, false),
    (156, Format::EacRgSigned, false),
];

// What Vulkan's number stands for.
fn vk_format(number: usize) -> Option<(Format, bool)>
    ensures { result ≡ known vk_rows number }
{
    formats::known_row(&ROWS, number)
}

// The rest of the header, once its format is known.
#[tactic(auto, unfolding(rules::specs::Ktx2::ktx2_as))]
fn header_as(known: Option<(Format, bool)>, d: &[u8]) -> Result<Layout, Refusal>
    requires { 80 ≤ length d.now }
    ensures { result ≡ ktx2_as known d.now }
{
    let (format, srgb) = known.ok_or(Refusal::UnknownFormat)?;
    let start = numbers::little4(d, 56);
    let size = numbers::little4(d, 60);
    let pairs = Pairs {
        second: true,
        order: false,
        d,
    };
    Ok(Layout {
        container: Container::Ktx2,
        format,
        srgb,
        width: numbers::little4(d, 20),
        height: numbers::little4(d, 24),
        levels: formats::one_at_least(numbers::little4(d, 40)),
        big_endian: false,
        orientation: pairs.orientation(start, size),
        start: 80,
        agrees: true,
    })
}

// The header.
#[tactic(auto, unfolding(rules::specs::Ktx2::ktx2_of))]
pub fn header(d: &[u8]) -> Result<Layout, Refusal>
    ensures { result ≡ ktx2_of d.now }
{
    if d.len() < 80 {
        return Err(Refusal::HeaderCut);
    }
    let depth = numbers::little4(d, 28);
    let layers = numbers::little4(d, 32);
    let faces = numbers::little4(d, 36);
    if !formats::is_flat(depth, layers, faces) {
        return Err(Refusal::NotFlat);
    }
    if numbers::little4(d, 44) != 0 {
        return Err(Refusal::Supercompressed);
    }
    header_as(vk_format(numbers::little4(d, 12)), d)
}
