// TAF with its change groups: one group of a part, what a change word opens, a part, and the report.
#![tactic(auto)]

pub mod answer;
pub mod group;
pub mod kinds;
pub mod part;
pub mod read;
pub mod word;
