// The header of a DDS file. Its numbers and their places are in crates/rules/specs/Dds.antt.
ghost use Rattle.std.specs.Prelude.{◌≡◌, ◌≤◌, List, ℕ, length};
ghost use Rattle.rules.specs.FileFormats.{known};
ghost use Rattle.rules.specs.Dds.{four_cc_rows, dxgi_rows, has_four_cc, is_dx10_lem, dds_flat_lem, dx10_flat_lem, dds_as};
ghost use Rattle.rules.specs.Dds.{four_cc_format, dx10_of, dds_of};

use super::formats;
use rules::{Container, Format, Layout, Orientation, Refusal};
use std::marker::Model;

// FourCCs and DXGI's numbers.
const FOURCC_ROWS: [(usize, Format, bool); 11] = [
    (0x44585431, Format::Bc1Alpha, false),
    (0x44585432, Format::Bc2, false),
    (0x44585433, Format::Bc2, false),
    (0x44585434, Format::Bc3, false),
    (0x44585435, Format::Bc3, false),
    (0x41544931, Format::Bc4, false),
    (0x42433455, Format::Bc4, false),
    (0x42433453, Format::Bc4Signed, false),
    (0x41544932, Format::Bc5, false),
    (0x42433555, Format::Bc5, false),
    (0x42433553, Format::Bc5Signed, false),
];

const DXGI_ROWS: [(usize, Format, bool); 18] = [
    (70, Format::Bc1Alpha, false),
    (71, Format::Bc1Alpha, false),
    (72, Format::Bc1Alpha, true),
    (73, Format::Bc2, false),
    (74, Format::Bc2, false),
    (75, Format::Bc2, true),
    (76, Format::Bc3, false),
    (77, Format::Bc3, false),
    (78, Format::Bc3, true),
    (79, Format::Bc4, false),
    (80, Format::Bc4, false),
    (81, Format::Bc4Signed, false),
    (82, Format::Bc5, false),
    (83, Format::Bc5, false),
    (84, Format::Bc5Signed, false),
    (97, Format::Bc7, false),
    (98, Format::Bc7, false),
    (99, Format::Bc7, true),
];

// What DXGI's number stands for.
fn dxgi_format(number: usize) -> Option<(Format, bool)>
    ensures { result ≡ known dxgi_rows number }
{
    formats::known_row(&DXGI_ROWS, number)
}

// What four letters stand for.
fn fourcc_named(number: usize) -> Option<(Format, bool)>
    ensures { result ≡ known four_cc_rows number }
{
    formats::known_row(&FOURCC_ROWS, number)
}

// The bytes of a file that has a whole header.
#[derive(Drop)]
struct Front<'a> {
    d: &'a [u8],
}

impl<'a> Model for Front<'a> {
    ghost Value = { List ℕ };

    ghost view = { λ h. h.d.now };

    ghost invariant = { λ h. 128 ≤ length h.d.now };
}

impl<'a> Front<'a> {
    // Whether the pixel format has a FourCC.
    fn has_fourcc(&self) -> bool
        ensures { result ≡ has_four_cc self.now }
    {
        numbers::little4(self.d, 80) / 4 % 2 == 1
    }

    // The format that the FourCC names.
    #[tactic(auto, unfolding(rules::specs::Dds::four_cc_format))]
    fn fourcc_format(&self) -> Option<(Format, bool)>
        ensures { result ≡ four_cc_format self.now }
    {
        if !self.has_fourcc() {
            return None;
        }
        fourcc_named(numbers::big4(self.d, 84))
    }

    // Whether 20 more bytes follow the header.
    fn is_dx10(&self) -> bool
        ensures { result ≡ is_dx10_lem self.now }
    {
        self.has_fourcc() && numbers::big4(self.d, 84) == 0x44583130
    }

    // Whether caps2 tells neither of a cube nor of a volume.
    #[tactic(auto, unfolding(rules::specs::Dds::dds_flat_lem))]
    fn is_flat(&self) -> bool
        ensures { result ≡ dds_flat_lem self.now }
    {
        let caps = numbers::little4(self.d, 112);
        let cube = caps / 0x200 % 2 == 1;
        let volume = caps / 0x200000 % 2 == 1;
        !cube && !volume
    }

    // The rest of the header, once its format is known, and where the levels start.
    #[tactic(auto, unfolding(rules::specs::Dds::dds_as))]
    fn told_as(&self, known: Option<(Format, bool)>, start: usize) -> Result<Layout, Refusal>
        ensures { result ≡ dds_as known start self.now }
    {
        let (format, srgb) = known.ok_or(Refusal::UnknownFormat)?;
        Ok(Layout {
            container: Container::Dds,
            format,
            srgb,
            width: numbers::little4(self.d, 16),
            height: numbers::little4(self.d, 12),
            levels: formats::one_at_least(numbers::little4(self.d, 28)),
            big_endian: false,
            orientation: Orientation::Untold,
            start,
            agrees: true,
        })
    }

    // The header with 20 more bytes.
    #[tactic(auto, unfolding(rules::specs::Dds::dx10_of))]
    fn with_dx10(&self) -> Result<Layout, Refusal>
        ensures { result ≡ dx10_of self.now }
    {
        if self.d.len() < 148 {
            return Err(Refusal::HeaderCut);
        }
        if self.is_flat() && dx10_flat(self.d) {
            return self.told_as(dxgi_format(numbers::little4(self.d, 128)), 148);
        }
        Err(Refusal::NotFlat)
    }
}

// Whether the 20 bytes tell of one picture.
#[tactic(auto, unfolding(rules::specs::Dds::dx10_flat_lem))]
fn dx10_flat(d: &[u8]) -> bool
    requires { 148 ≤ length d.now }
    ensures { result ≡ dx10_flat_lem d.now }
{
    let dimension = numbers::little4(d, 132);
    let cube = numbers::little4(d, 136) / 4 % 2 == 1;
    let several = 1 < numbers::little4(d, 140);
    (dimension == 3 || dimension == 0) && !cube && !several
}

// The header.
#[tactic(auto, unfolding(rules::specs::Dds::dds_of))]
pub fn header(d: &[u8]) -> Result<Layout, Refusal>
    ensures { result ≡ dds_of d.now }
{
    if d.len() < 128 {
        return Err(Refusal::HeaderCut);
    }
    let front = Front { d };
    if front.is_dx10() {
        return front.with_dx10();
    }
    if front.is_flat() {
        return front.told_as(front.fourcc_format(), 128);
    }
    Err(Refusal::NotFlat)
}
