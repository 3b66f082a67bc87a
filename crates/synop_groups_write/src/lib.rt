// The writer of the groups of SYNOP and SHIP: how each is written.
#![tactic(auto)]

pub mod write;
