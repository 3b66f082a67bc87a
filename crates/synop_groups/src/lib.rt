// The groups of SYNOP and SHIP: what each says, and what a call sign is made of.
#![tactic(auto)]

pub mod kinds;
pub mod read;
pub mod sign;
