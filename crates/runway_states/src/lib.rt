// Runway states, document 02, No. 13: a runway with CLRD//, or with its deposit, extent, depth and braking; and SNOCLO. What each group says, what the
// writer judges of it, and how it is written.
#![tactic(auto)]

pub mod judge;
pub mod read;
pub mod tables;
pub mod write;
