// The writer of METAR and SPECI: a record judged, and written as its canonical text.
#![tactic(auto)]

pub mod judge;
mod trends;
pub mod write;
