// Wind, its variation and visibility: what their groups say, what the writer judges of them, and how they are written.
#![tactic(auto)]

pub mod directions;
pub mod judge;
pub mod read;
pub mod write;
