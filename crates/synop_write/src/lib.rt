// The writer of SYNOP and SHIP: a record judged, and written as its canonical text.
#![tactic(auto)]

pub mod judge;
pub mod write;
