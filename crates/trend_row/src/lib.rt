// The trend of a METAR or SPECI: its times, the row of places that a change is held to, and the small tests that decide at a word or at a change's end.
#![tactic(auto)]

pub mod kinds;
pub mod row;
pub mod tests;
pub mod times;
