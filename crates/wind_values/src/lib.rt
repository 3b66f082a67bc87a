// The parts of a wind by themselves: what a speed's figures say, which speeds are written with P, and which parts agree. A crate of their own, so that an
// edit that has to be refused is checked in little time.
#![tactic(auto)]

pub mod agree;
pub mod speeds;
