// The bake house: the checker of ETC1 blocks uses `distance`, and the baker of individual ETC1 blocks is `baker::bake`.
#![tactic(auto)]

pub mod baker;
pub mod baking;
mod codes;
pub mod distance;
mod indices;
mod nearest;
mod tile;
