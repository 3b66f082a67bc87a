// The numbers and figures of the scales. Every function answers for every number: a value that may not be written is out of range, a figure
// that no value is written as is unused.

// The figure of a value as two bytes of text, tens first.
#[derive(Clone, Copy)]
pub struct TwoFigures {
    pub tens: u8,
    pub units: u8,
}

// A runway range as it is written: M and figures, figures, P and figures.
#[derive(Clone, Copy)]
pub enum Range {
    Below(u32),
    Exact(u32),
    Above(u32),
}

// Whole degrees as they are written: M for minus, and the figures.
#[derive(Clone, Copy)]
pub struct Degrees {
    pub minus: bool,
    pub whole: u32,
}

// An amount of rain: a trace, or tenths of a millimetre.
#[derive(Clone, Copy)]
pub enum Rain {
    Trace,
    Tenths(u32),
}
