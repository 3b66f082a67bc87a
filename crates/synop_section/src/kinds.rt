// What the reader of SYNOP and SHIP answers, and what it holds on the way.
use record::surface::{Surface, Synop};
use text::kinds::Refused;

// The record is blank where the text is refused.
#[derive(Clone, Copy)]
pub struct Reading {
    pub verdict: Result<usize, Refused>,
    pub report: Synop,
}

// What follows section 1: the end of the reading, or section 3, `at` behind 333.
#[derive(Clone, Copy)]
pub enum Next {
    End(Result<usize, Refused>),
    Section3 { at: usize },
}

// What is read of section 1: the surface, and what follows it.
#[derive(Clone, Copy)]
pub struct SectionRead {
    pub next: Next,
    pub surface: Surface,
}
