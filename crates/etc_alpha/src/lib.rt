// The alpha half of RGBA8, and what EAC shares with it: the fields of a block and the pick by three-bit indices (`picks`), the steps
// and the alpha half itself (`channel`).
#![tactic(auto)]

pub mod channel;
pub mod picks;
