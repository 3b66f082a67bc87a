// The row of places that a part of a TAF is held to, and the small tests that decide at a group or at a part's end.
#![tactic(auto)]

pub mod kinds;
pub mod row;
pub mod tests;
