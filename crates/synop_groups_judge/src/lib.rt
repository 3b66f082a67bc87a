// What the writer judges of each group of SYNOP and SHIP before it writes anything.
#![tactic(auto)]

pub mod judge;
pub mod slots;
