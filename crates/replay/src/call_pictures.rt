// The picture readers without a pitch: by the format's number, then strict ETC1, opaque RGBA1, and EAC's whole values.
use super::call_whole;
use rules::Refusal;

pub fn read(
    k: usize,
    data: &[u8],
    width: usize,
    height: usize,
    image: &mut [u32],
) -> Result<(), Refusal> {
    if k < 4 {
        return etc(k, data, width, height, image);
    }
    if k < 8 {
        return eac(k, data, width, height, image);
    }
    if k < 12 {
        return desktop(k, data, width, height, image);
    }
    if k < 24 {
        return rgtc(k, data, width, height, image);
    }
    if k < 28 {
        return guarded(k, data, width, height, image);
    }
    call_whole::read(k, data, width, height, image)
}

fn etc(
    k: usize,
    data: &[u8],
    width: usize,
    height: usize,
    image: &mut [u32],
) -> Result<(), Refusal> {
    match k {
        0 => readers::decode_etc1(data, width, height, image),
        1 => readers::decode_etc2_rgb(data, width, height, image),
        2 => readers::decode_etc2_rgba1(data, width, height, image),
        _ => readers::decode_etc2_rgba8(data, width, height, image),
    }
}

fn eac(
    k: usize,
    data: &[u8],
    width: usize,
    height: usize,
    image: &mut [u32],
) -> Result<(), Refusal> {
    match k {
        4 => readers::decode_eacr(data, width, height, image),
        5 => readers::decode_eacr_signed(data, width, height, image),
        6 => readers::decode_eacrg(data, width, height, image),
        _ => readers::decode_eacrg_signed(data, width, height, image),
    }
}

fn desktop(
    k: usize,
    data: &[u8],
    width: usize,
    height: usize,
    image: &mut [u32],
) -> Result<(), Refusal> {
    match k {
        8 => readers::decode_bc1(data, width, height, image),
        9 => readers::decode_bc1a(data, width, height, image),
        10 => readers::decode_bc3(data, width, height, image),
        _ => readers::decode_bc7(data, width, height, image),
    }
}

fn rgtc(
    k: usize,
    data: &[u8],
    width: usize,
    height: usize,
    image: &mut [u32],
) -> Result<(), Refusal> {
    match k {
        12 => readers::decode_bc2(data, width, height, image),
        13 => readers::decode_bc4(data, width, height, image),
        14 => readers::decode_bc4_signed(data, width, height, image),
        15 => readers::decode_bc5(data, width, height, image),
        _ => readers::decode_bc5_signed(data, width, height, image),
    }
}

fn guarded(
    k: usize,
    data: &[u8],
    width: usize,
    height: usize,
    image: &mut [u32],
) -> Result<(), Refusal> {
    match k {
        24 => readers::decode_etc1_strict(data, width, height, image),
        _ => readers::decode_etc2_rgba1_opaque(data, width, height, image),
    }
}
