// Section 1 of SYNOP and SHIP after Nddff as a row of places: what was read before requires of it, its shapes and stop words, and where a group goes.
#![tactic(auto)]

pub mod kinds;
pub mod row;
