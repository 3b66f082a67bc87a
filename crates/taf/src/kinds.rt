// What the reader and writer of TAF answer, and what they hold on the way.
use record::aerodrome::{Change, Leg, Opening, Period, Taf};
use taf_row::kinds::Part;
use text::kinds::Refused;

// What a change word opens, with the period that FMYYGGgg or FMGGgg gives, or the word's refusal.
#[derive(Clone, Copy)]
pub struct Opened {
    pub opening: Opening,
    pub period: Period,
}

// What opens a change, TEMPO with PROB30 or PROB40 too, and where its part begins.
#[derive(Clone, Copy)]
pub struct Start {
    pub opening: Opening,
    pub at: usize,
}

// What a part begins with: which part it is, how many groups have stood at its first place, and the period that its word gave, blank where it gave none.
#[derive(Clone, Copy)]
pub struct Outset {
    pub part: Part,
    pub stood: usize,
    pub period: Period,
}

// What follows a part: the end of the reading, or a change, `at` behind its word.
#[derive(Clone, Copy)]
pub enum Next {
    End(Result<usize, Refused>),
    Change {
        opening: Opening,
        period: Period,
        at: usize,
    },
}

#[derive(Clone, Copy)]
pub struct PartRead {
    pub next: Next,
    pub leg: Leg,
}

// What is read from a change on: the verdict on the text, and the changes, those before it still blank.
#[derive(Clone, Copy)]
pub struct Ahead {
    pub verdict: Result<usize, Refused>,
    pub items: [Change; 16],
    pub count: usize,
}

// The record is blank where the text is refused.
#[derive(Clone, Copy)]
pub struct Reading {
    pub verdict: Result<usize, Refused>,
    pub report: Taf,
}
