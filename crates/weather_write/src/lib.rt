// Weather groups of METAR, SPECI and TAF, present, forecast and recent: what the writer judges of them, and how they are written.
#![tactic(auto)]

pub mod judge;
pub mod write;
