// The first record of a sheet: its head, or why there is none.
ghost use Rattle.sheet.specs.first.Heads.{Heads};

use super::records;
use rules::{Head, Picture, Refusal};

// A head, with a place in the sheet and how many bytes its blocks are.
#[derive(Clone, Copy)]
pub struct Found {
    pub head: Head,
    pub start: usize,
    pub length: usize,
}

// The head of a sheet, and the place behind it.
pub fn first_record(d: &[u8]) -> Result<Found, Refusal>
    ensures { Heads d.now result }
{
    let Some(record) = records::record_at(d, 0)? else {
        return Err(Refusal::CutShort);
    };
    if record.kind != 1 {
        return Err(Refusal::NoHead);
    }
    if record.length != 9 {
        return Err(Refusal::NoHead);
    }
    let number = usize::from(d[record.start]);
    if 7 < number {
        return Err(Refusal::NoHead);
    }
    let width = numbers::little4(d, record.start + 1);
    let height = numbers::little4(d, record.start + 5);
    let pic = Picture::sized(width, height);
    if checks::too_large(16384, pic) {
        return Err(Refusal::TooLarge);
    }
    let format = super::format_of(number);
    Ok(Found {
        head: Head {
            format,
            width,
            height,
        },
        start: record.start + record.length,
        length: super::block_bytes(format, pic),
    })
}
