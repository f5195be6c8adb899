// The pixel word (`color`), and pixels or 16-bit numbers put into an image: one after another (`fill`), a tile of sixteen (`place`).
#![tactic(auto)]

pub mod color;
pub mod fill;
pub mod place;
