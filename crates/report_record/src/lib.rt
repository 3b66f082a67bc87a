// The record of a report of any kind: the answer that holds it, and whether one report corrects another.
#![tactic(auto)]

pub mod answer;
pub mod kinds;
pub mod kinship;
