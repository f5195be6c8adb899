// The whole walk over a sheet: its head, and the start of its blocks.
ghost use Rattle.sheet.specs.find.Found.{Finds};

use super::first::Found;
use super::{first, later};
use rules::Refusal;

// The head of a sheet, with the start of its blocks and how many bytes they are.
pub fn find(d: &[u8]) -> Result<Found, Refusal>
    ensures { Finds d.now result }
{
    let front = first::first_record(d)?;
    let start = later::after_head(d, front.start, front.length)?;
    Ok(Found { start, ..front })
}
