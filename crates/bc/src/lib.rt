// BC1 to BC5: the palette of four colours (`bc1`), the eight alphas of a half (`alphas`, and `alpha_lanes` as vector code), the picks of
// each pixel (`picks`), the BC2 and the BC3 block (`bc2`, `bc3`), and those of BC4 and BC5 (`rgtc`).
#![tactic(auto)]

mod alpha_lanes;
mod alphas;
pub mod bc1;
pub mod bc2;
pub mod bc3;
mod picks;
pub mod rgtc;
