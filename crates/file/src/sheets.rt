// Sheets as files, by the walk that their reader makes.
ghost use Rattle.std.specs.Prelude.{◌≡◌};
ghost use Rattle.rules.specs.SheetFile.{is_sheet_lem, sheet_header};

use super::formats;
use rules::{Container, Layout, Orientation, Refusal};
use sheet::find;

// Whether a file begins as a sheet does.
pub fn is_sheet(d: &[u8]) -> bool
    ensures { result ≡ is_sheet_lem d.now }
{
    formats::has4(d, 0, 0x09000000) && formats::has4(d, 2, 0x00000100)
}

// What a sheet holds, or why it is refused.
pub fn header(d: &[u8]) -> Result<Layout, Refusal>
    ensures { result ≡ sheet_header d.now }
{
    let found = find::find(d)?;
    Ok(Layout {
        container: Container::Sheet,
        format: found.head.format,
        srgb: false,
        width: found.head.width,
        height: found.head.height,
        levels: 1,
        big_endian: false,
        orientation: Orientation::Untold,
        start: found.start,
        agrees: true,
    })
}
