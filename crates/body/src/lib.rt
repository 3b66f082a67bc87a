// The body of an observation and of each part of a forecast: what a group of it says and how that goes into the body, what the writer judges of it, and
// how it is written.
#![tactic(auto)]

pub mod judge;
pub mod kinds;
pub mod read;
pub mod write;
