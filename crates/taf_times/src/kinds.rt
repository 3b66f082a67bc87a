// What a period comes to, and what moving a TAF answers.
use record::aerodrome::Taf;
use text::kinds::Refusal;

// From one moment to another, in minutes from the beginning of the day before the first of the starting month.
#[derive(Clone, Copy)]
pub struct Span {
    pub from: u32,
    pub to: u32,
}

// The TAF in the other edition; where it is refused, 11 or 15, it is blank.
// Not a Result of the TAF: what a refused move hands back is promised.
#[derive(Clone, Copy)]
pub struct MovedTaf {
    pub judged: Result<(), Refusal>,
    pub forecast: Taf,
}
