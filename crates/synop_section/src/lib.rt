// Section 1 of SYNOP and SHIP after Nddff: its row of places, the reader of its groups, and the answer to a text.
#![tactic(auto)]

pub mod answer;
pub mod kinds;
pub mod section;
