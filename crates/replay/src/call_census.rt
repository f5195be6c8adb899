// The censuses and the counts for older viewers, with their counts as the first elements of the lent image.
use super::elements;
use rules::{OlderCounts, Refusal};

pub fn rgb(data: &[u8], width: usize, height: usize, image: &mut [u32]) -> Result<(), Refusal> {
    let c = readers::census_etc2_rgb(data, width, height)?;
    let counts = [c.individual, c.differential, c.t, c.h, c.planar];
    elements::put(&counts, image)
}

pub fn rgba1(data: &[u8], width: usize, height: usize, image: &mut [u32]) -> Result<(), Refusal> {
    let c = readers::census_etc2_rgba1(data, width, height)?;
    let o = c.opaque;
    let u = c.clear;
    let counts = [
        o.differential,
        o.t,
        o.h,
        o.planar,
        u.differential,
        u.t,
        u.h,
        u.planar,
    ];
    elements::put(&counts, image)
}

pub fn older(counts: Result<OlderCounts, Refusal>, image: &mut [u32]) -> Result<(), Refusal> {
    let c = counts?;
    let values = [
        c.pixels,
        c.blocks,
        c.block,
        c.place,
        elements::wide(c.colour),
        elements::wide(c.alpha),
    ];
    elements::put(&values, image)
}
