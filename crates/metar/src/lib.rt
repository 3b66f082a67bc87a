// METAR and SPECI: a text read.
#![tactic(auto)]

pub mod answer;
pub mod kinds;
pub mod read;
pub mod step;
