// The colour block of ETC1, ETC2 RGB and RGBA1: `etc2` reads it by its kind, from the bases of two halves (`etc1`), the fields of T and H
// (`fields`, `modes`) or the three corners of planar (`planar`); `shade` adds the steps and picks a colour for each pixel.
#![tactic(auto)]

pub mod etc1;
pub mod etc2;
mod fields;
mod modes;
mod planar;
pub mod shade;
mod widen;
