// The picture readers that take a pitch, in the order of their twins in call_pictures.rt.
use super::call_whole;
use rules::{Picture, Refusal};

pub fn read(
    k: usize,
    data: &[u8],
    width: usize,
    height: usize,
    pitch: usize,
    image: &mut [u32],
) -> Result<(), Refusal> {
    let pic = Picture {
        width,
        height,
        pitch,
    };
    if k < 4 {
        return etc(k, data, pic, image);
    }
    if k < 8 {
        return eac(k, data, pic, image);
    }
    if k < 12 {
        return desktop(k, data, pic, image);
    }
    if k < 24 {
        return rgtc(k, data, pic, image);
    }
    if k < 28 {
        return guarded(k, data, pic, image);
    }
    call_whole::read_pitched(k, data, pic, image)
}

fn etc(k: usize, data: &[u8], pic: Picture, image: &mut [u32]) -> Result<(), Refusal> {
    match k {
        0 => readers::decode_etc1_pitched(data, pic, image),
        1 => readers::decode_etc2_rgb_pitched(data, pic, image),
        2 => readers::decode_etc2_rgba1_pitched(data, pic, image),
        _ => readers::decode_etc2_rgba8_pitched(data, pic, image),
    }
}

fn eac(k: usize, data: &[u8], pic: Picture, image: &mut [u32]) -> Result<(), Refusal> {
    match k {
        4 => readers::decode_eacr_pitched(data, pic, image),
        5 => readers::decode_eacr_signed_pitched(data, pic, image),
        6 => readers::decode_eacrg_pitched(data, pic, image),
        _ => readers::decode_eacrg_signed_pitched(data, pic, image),
    }
}

fn desktop(k: usize, data: &[u8], pic: Picture, image: &mut [u32]) -> Result<(), Refusal> {
    match k {
        8 => readers::decode_bc1_pitched(data, pic, image),
        9 => readers::decode_bc1a_pitched(data, pic, image),
        10 => readers::decode_bc3_pitched(data, pic, image),
        _ => readers::decode_bc7_pitched(data, pic, image),
    }
}

fn rgtc(k: usize, data: &[u8], pic: Picture, image: &mut [u32]) -> Result<(), Refusal> {
    match k {
        12 => readers::decode_bc2_pitched(data, pic, image),
        13 => readers::decode_bc4_pitched(data, pic, image),
        14 => readers::decode_bc4_signed_pitched(data, pic, image),
        15 => readers::decode_bc5_pitched(data, pic, image),
        _ => readers::decode_bc5_signed_pitched(data, pic, image),
    }
}

fn guarded(k: usize, data: &[u8], pic: Picture, image: &mut [u32]) -> Result<(), Refusal> {
    match k {
        24 => readers::decode_etc1_strict_pitched(data, pic, image),
        _ => readers::decode_etc2_rgba1_opaque_pitched(data, pic, image),
    }
}
