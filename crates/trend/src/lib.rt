// The trend of a METAR or SPECI: one group of a change, what a word comes to, a part, and the trend.
#![tactic(auto)]

pub mod group;
pub mod kinds;
pub mod part;
pub mod read;
pub mod word;
