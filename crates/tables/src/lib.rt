// The constant tables of ETC and EAC (`consts`), and the 2,048 products of multiplier and alpha step (`products`).
#![tactic(auto)]

pub mod consts;
pub mod products;
