// The sky of METAR, SPECI and TAF: its groups read one after the other; a record's sky judged and written.
#![tactic(auto)]

pub mod judge;
pub mod read;
pub mod write;
