// Section 3 of SYNOP and SHIP, from behind 333 on: its row of three places, its reading, what the writer judges of it, and how it is written.
#![tactic(auto)]

pub mod heights;
pub mod judge;
pub mod kinds;
pub mod read;
pub mod row;
pub mod write;
