// The scales: the figure that a value is written as, and the reading of a figure.
#![tactic(auto)]

pub mod degrees;
pub mod depth;
pub mod direction;
pub mod kinds;
pub mod layers;
pub mod metres;
pub mod pressure;
pub mod rain;
