// Sheets: the head in the first three elements, and a sheet that is written, one byte an element.
use super::case::{Case, Said};
use super::{call, elements};
use rules::Refusal;

pub fn head(data: &[u8], image: &mut [u32]) -> Result<(), Refusal> {
    let head = readers::sheet_head(data)?;
    let fields = [usize::from(head.format), head.width, head.height];
    elements::put(&fields, image)
}

// With answer 0 the bytes that the sheet has are the answer's second number.
pub fn write(c: Case, data: &[u8], image: &mut [u32]) -> Said {
    let mut room = [0u8; 65600];
    write_in(c, data, &mut room, image)
}

fn write_in(c: Case, data: &[u8], room: &mut [u8], image: &mut [u32]) -> Said {
    let n = image.len();
    if room.len() < n {
        return call::unknown();
    }
    elements::turn(image, room, |x| (x % 256) as u8);
    let written = readers::write_sheet(c.a, c.width, c.height, data, &mut room[..n]);
    elements::turn(room, image, |b| u32::from(b));
    match written {
        Ok(bytes) => Said {
            number: 0,
            extra: (bytes % 0x100000000) as u32,
        },
        Err(refusal) => Said {
            number: answer_numbers::refusal_number(refusal),
            extra: 0,
        },
    }
}
