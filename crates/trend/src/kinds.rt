// What the reader of a trend answers, and what it holds on the way.
use record::aerodrome::{Trend, TrendChange};
use text::kinds::Refused;
use trend_row::kinds::Word;

// What follows the observation or a part of the trend: the end of the reading, or a part, `at` behind its word.
#[derive(Clone, Copy)]
pub enum Next {
    End(Result<usize, Refused>),
    Part { word: Word, at: usize },
}

#[derive(Clone, Copy)]
pub struct PartRead {
    pub next: Next,
    pub change: TrendChange,
}

// What is read from the trend's first word on: the verdict on the text, and the trend.
#[derive(Clone, Copy)]
pub struct Ahead {
    pub verdict: Result<usize, Refused>,
    pub trend: Trend,
}
