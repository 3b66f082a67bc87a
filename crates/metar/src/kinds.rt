// What the reader of METAR and SPECI answers, and where it stands while it reads.
use record::aerodrome::Metar;
use text::kinds::Refused;

// The record is blank where the text is refused.
#[derive(Clone, Copy)]
pub struct Reading {
    pub verdict: Result<usize, Refused>,
    pub report: Metar,
}

// Where the reading of an observation stands: `count` groups at a place of the row, and the next group at or after a position of the text.
#[derive(Clone, Copy)]
pub struct Standing {
    pub place: usize,
    pub count: usize,
    pub from: usize,
}
