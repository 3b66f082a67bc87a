// Reading a trend, from behind its first word on.
ghost use Rattle.trend.specs.Step.{TrendRead};

use crate::kinds::{Ahead, Next};
use crate::part::read_part;
use record::blank_aerodrome::blank_trend;
use trend_row::kinds::Word;
use trend_row::row::is_change;

// NOSIG, or the changes one after the other: each is stored in the loop's own trend.
pub fn read_trend(text: &[u8], at: usize, first: Word) -> Ahead
    ensures { TrendRead text.now first at result }
{
    let mut trend = blank_trend();
    let mut word = first;
    let mut from = at;
    let mut n = 0;
    loop {
        let read = read_part(text, from, word, n + 1);
        if is_change(word) {
            trend.items[n] = read.change;
            trend.count = n + 1;
        } else {
            trend.nosig = true;
        }
        n += 1;
        match read.next {
            Next::End(verdict) => return Ahead { verdict, trend },
            Next::Part {
                word: other,
                at: behind,
            } => {
                word = other;
                from = behind;
            }
        }
    }
}
