// What a reading may stem from: of every scale, the least and the greatest value that is read so, or that the class is open above.
#![tactic(auto)]

pub mod degrees;
pub mod direction;
pub mod kinds;
pub mod metres;
pub mod pressure;
pub mod rain;
