// The record: what a report says, one struct for each code group. What may be missing is an enum, never a number of its own; whole numbers are
// in document 01's units.
#![tactic(auto)]

pub mod aerodrome;
pub mod blank;
pub mod blank_aerodrome;
pub mod blank_surface;
pub mod meaning;
pub mod silent_aerodrome;
pub mod silent_surface;
pub mod surface;
pub mod values;
