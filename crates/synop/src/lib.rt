// SYNOP and SHIP: their definitions, and the reader of a text.
#![tactic(auto)]

pub mod head;
pub mod kinds;
pub mod read;
