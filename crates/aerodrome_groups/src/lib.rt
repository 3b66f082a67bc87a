// Station and time, runway ranges, temperatures and Q, the groups of METAR and SPECI beside the elements: what each says, what the writer judges of
// it, and how it is written.
#![tactic(auto)]

pub mod judge;
pub mod read;
pub mod write;
