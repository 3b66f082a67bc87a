// Wind, visibility, weather and sky, the elements of METAR, SPECI and TAF: what all who read and write them share.
#![tactic(auto)]

pub mod judge;
pub mod kinds;
