// The block readers: by the format's number, then the alpha half of RGBA8 and those that name a channel.
use rules::Refusal;

pub fn read(k: usize, channel: usize, data: &[u8], image: &mut [u32]) -> Result<(), Refusal> {
    if k < 4 {
        return etc(k, data, image);
    }
    if k < 8 {
        return eac(k, data, image);
    }
    if k < 12 {
        return desktop(k, data, image);
    }
    if k < 24 {
        return rgtc(k, data, image);
    }
    joined(k, channel, data, image)
}

fn etc(k: usize, data: &[u8], image: &mut [u32]) -> Result<(), Refusal> {
    match k {
        0 => readers::decode_etc1_block(data, image),
        1 => readers::decode_etc2_rgb_block(data, image),
        2 => readers::decode_etc2_rgba1_block(data, image),
        _ => readers::decode_etc2_rgba8_block(data, image),
    }
}

fn eac(k: usize, data: &[u8], image: &mut [u32]) -> Result<(), Refusal> {
    match k {
        4 => readers::decode_eacr_block(data, image),
        5 => readers::decode_eacr_signed_block(data, image),
        6 => readers::decode_eacrg_block(data, image),
        _ => readers::decode_eacrg_signed_block(data, image),
    }
}

fn desktop(k: usize, data: &[u8], image: &mut [u32]) -> Result<(), Refusal> {
    match k {
        8 => readers::decode_bc1_block(data, image),
        9 => readers::decode_bc1a_block(data, image),
        10 => readers::decode_bc3_block(data, image),
        _ => readers::decode_bc7_block(data, image),
    }
}

fn rgtc(k: usize, data: &[u8], image: &mut [u32]) -> Result<(), Refusal> {
    match k {
        12 => readers::decode_bc2_block(data, image),
        13 => readers::decode_bc4_block(data, image),
        14 => readers::decode_bc4_signed_block(data, image),
        15 => readers::decode_bc5_block(data, image),
        _ => readers::decode_bc5_signed_block(data, image),
    }
}

fn joined(k: usize, channel: usize, data: &[u8], image: &mut [u32]) -> Result<(), Refusal> {
    match k {
        24 => readers::decode_etc2_a8_block(data, image),
        25 => readers::decode_eac_block(data, channel, image),
        26 => readers::decode_eac_signed_block(data, channel, image),
        _ => readers::decode_bc3_alpha(data, channel, image),
    }
}
