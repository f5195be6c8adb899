// Reading sheets: the walk over their records, then the plain picture reader on exactly the payload of the block record.
#![tactic(auto)]

ghost use Rattle.rules.specs.Sheets.{TellsHead, ReadsSheet};

use rules::{Head, Picture, Refusal};
use sheet::find;

// What a sheet's head says, for all bytes, or why the sheet is refused.
pub fn sheet_head(bytes: &[u8]) -> Result<Head, Refusal>
    ensures { TellsHead bytes.now result }
{
    let found = find::find(bytes)?;
    Ok(found.head)
}

// Reads a sheet: the answer and every element of the image, for all inputs.
pub fn read_sheet(bytes: &[u8], image: &mut [u32]) -> Result<(), Refusal>
    ensures { ReadsSheet bytes.now image.old result image.new }
{
    let found = find::find(bytes)?;
    let pic = Picture {
        width: found.head.width,
        height: found.head.height,
        pitch: found.head.width,
    };
    let end = found.start + found.length;
    picture::read_picture(found.head.format, &bytes[found.start..end], pic, image)
}
