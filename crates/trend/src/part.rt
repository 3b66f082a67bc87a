// The groups of one part of a trend, up to the word that ends it or up to the end of the text.
ghost use Rattle.std.specs.Prelude.{◌≡◌, not, length};
ghost use Rattle.text.specs.Text.{tail_of};
ghost use Rattle.shapes.specs.Pattern.{has_any};
ghost use Rattle.places.specs.Answer.{end_verdict};
ghost use Rattle.body.specs.Met.{Meets};
ghost use Rattle.metar_row.specs.Row.{words};
ghost use Rattle.trend_row.specs.Row.{is_change, row};
ghost use Rattle.trend_row.specs.Tests.{lacks_in};
ghost use Rattle.trend.specs.Read.{tendency_of, start_of};
ghost use Rattle.trend.specs.Said.{change_said};
ghost use Rattle.trend.specs.Step.{refused_at, MetWord, PartDone};
ghost use Rattle.trend.specs.declared.kinds.Next.TheVariants as next;

use crate::group::{decide, say_at};
use crate::kinds::{Next, PartRead};
use crate::word::{meet_word, refuse};
use body::kinds::Met;
use body::read::{meet_said, put};
use elements::kinds::Said;
use places::end_verdict;
use places::kinds::Turn;
use record::aerodrome::{Body, Tendency, Times, TrendChange};
use record::blank_aerodrome::blank_trend_change;
use text::kinds::{Cut, Refusal};
use trend_row::kinds::Word;
use trend_row::row::is_change;
use trend_row::tests::lacks;

fn tendency_of(word: Word) -> Tendency
    ensures { result ≡ tendency_of word }
{
    match word {
        Word::Nosig => Tendency::None,
        Word::Becoming => Tendency::Becoming,
        Word::Temporary => Tendency::Temporary,
    }
}

// A change as its word leaves it.
fn start_of(word: Word) -> TrendChange
    ensures { result ≡ start_of word }
{
    TrendChange {
        tendency: tendency_of(word),
        ..blank_trend_change()
    }
}

// ---- the part with what follows it, which the loop hands over in one piece

fn end_part(text: &[u8], word: Word, change: TrendChange) -> PartRead
    ensures { result ≡ record { next = next.End (end_verdict (tail_of text.now) (length text.now) (lacks_in word change.body)); change = change } }
{
    PartRead {
        next: Next::End(end_verdict(text, lacks(word, change.body))),
        change,
    }
}

fn leave_part(
    g: &[u8],
    start: usize,
    end: usize,
    word: Word,
    n: usize,
    change: TrendChange,
) -> PartRead
    ensures { (result.change ≡ change) × MetWord g.now start end n (not (is_change word)) (lacks_in word change.body) result.next }
{
    let lacking = lacks(word, change.body);
    let next = meet_word(g, start, end, n, !is_change(word), lacking);
    PartRead { next, change }
}

fn refuse_part(refusal: Refusal, place: usize, change: TrendChange) -> PartRead
    ensures { result ≡ record { next = refused_at refusal place; change = change } }
{
    PartRead {
        next: refuse(refusal, place),
        change,
    }
}

// The next group of the text: where it goes in the row, and what it says there. Of the change it sees what a reading depends on.
fn meet(
    text: &[u8],
    from: usize,
    free: bool,
    place: usize,
    count: usize,
    times: Times,
    body: Body,
) -> Met
    ensures { Meets (row free) (has_any words) change_said place count (λ c. (c.times ≡ times) × (c.body ≡ body)) text.now from result }
{
    let Cut::Group { start, end } = text::next_group(text, from) else {
        return Met::Over;
    };
    let g = text::part(text, start, end);
    match decide(free, place, count, g) {
        Turn::Halt => Met::Halt { start, end },
        Turn::Refused(refusal) => Met::Refused { refusal, start },
        Turn::At {
            place: there,
            count: standing,
        } => {
            let said = say_at(there, standing, g, times, body);
            meet_said(said, there, standing, start, end)
        }
    }
}

// A part from behind its word on; the report that takes it in has n changes. The change is the loop's own: what each group says is stored in it.
pub fn read_part(text: &[u8], at: usize, word: Word, n: usize) -> PartRead
    ensures { PartDone text.now word n at result }
{
    let free = is_change(word);
    let mut change = start_of(word);
    let mut here = 0;
    let mut standing = 0;
    let mut from = at;
    loop {
        let met = meet(text, from, free, here, standing, change.times, change.body);
        match met {
            Met::Over => return end_part(text, word, change),
            Met::Halt { start, end } => {
                return leave_part(text::part(text, start, end), start, end, word, n, change);
            }
            Met::Refused { refusal, start } => return refuse_part(refusal, start, change),
            Met::Says(group) => {
                let said = group.said;
                here = group.place;
                standing = group.count + 1;
                from = group.end;
                match said {
                    Said::Times(x) => change.times = x,
                    _ => change.body = put(said, group.count, change.body),
                }
            }
        }
    }
}
