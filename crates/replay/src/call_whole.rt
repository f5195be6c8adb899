// The readers of EAC's whole values, with and without a pitch: an element has one value in its low sixteen bits.
use super::elements;
use rules::{Picture, Refusal};

pub fn read(
    k: usize,
    data: &[u8],
    width: usize,
    height: usize,
    image: &mut [u32],
) -> Result<(), Refusal> {
    let pic = Picture::sized(width, height);
    let mut room = [0u16; 65600];
    read_in(k, false, data, pic, &mut room, image)
}

pub fn read_pitched(k: usize, data: &[u8], pic: Picture, image: &mut [u32]) -> Result<(), Refusal> {
    let mut room = [0u16; 65600];
    read_in(k, true, data, pic, &mut room, image)
}

fn read_in(
    k: usize,
    pitched: bool,
    data: &[u8],
    pic: Picture,
    room: &mut [u16],
    image: &mut [u32],
) -> Result<(), Refusal> {
    let n = image.len();
    if room.len() < n {
        return Err(Refusal::ShortImage);
    }
    elements::turn(image, room, |x| (x % 0x10000) as u16);
    let answer = decoded(k, pitched, data, pic, &mut room[..n]);
    elements::turn(room, image, |value| u32::from(value));
    answer
}

fn decoded(
    k: usize,
    pitched: bool,
    data: &[u8],
    pic: Picture,
    values: &mut [u16],
) -> Result<(), Refusal> {
    if pitched {
        return with_a_pitch(k, data, pic, values);
    }
    plain(k, data, pic.width, pic.height, values)
}

fn plain(
    k: usize,
    data: &[u8],
    width: usize,
    height: usize,
    values: &mut [u16],
) -> Result<(), Refusal> {
    match k {
        28 => readers::decode_eacr11(data, width, height, values),
        29 => readers::decode_eacr11_signed(data, width, height, values),
        30 => readers::decode_eacrg11(data, width, height, values),
        _ => readers::decode_eacrg11_signed(data, width, height, values),
    }
}

fn with_a_pitch(k: usize, data: &[u8], pic: Picture, values: &mut [u16]) -> Result<(), Refusal> {
    match k {
        28 => readers::decode_eacr11_pitched(data, pic, values),
        29 => readers::decode_eacr11_signed_pitched(data, pic, values),
        30 => readers::decode_eacrg11_pitched(data, pic, values),
        _ => readers::decode_eacrg11_signed_pitched(data, pic, values),
    }
}
