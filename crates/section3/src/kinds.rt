// What a group of section 3 says, and what is read of the section.
use record::surface::{Air, CloudLayer, Section3};
use text::kinds::{Refusal, Refused};

// A group's meaning, or its refusal, 5, 7 or 9; 8//// says nothing.
#[derive(Clone, Copy)]
pub enum Told {
    Nothing,
    Refused(Refusal),
    Maximum(Air),
    Minimum(Air),
    Layer(CloudLayer),
}

// What is read from behind 333 on: the verdict on the text, and the section that it accepts.
#[derive(Clone, Copy)]
pub struct Section3Read {
    pub verdict: Result<usize, Refused>,
    pub section3: Section3,
}
