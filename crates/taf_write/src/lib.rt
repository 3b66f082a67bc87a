// The writer of TAF: a record judged, and written as its canonical text.
#![tactic(auto)]

pub mod judge;
pub mod write;
