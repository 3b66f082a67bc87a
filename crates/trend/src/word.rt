// What a word comes to, after the observation or after a part of the trend.
ghost use Rattle.std.specs.Prelude.{◌≡◌};
ghost use Rattle.shapes.specs.Pattern.{has_any};
ghost use Rattle.metar_row.specs.Row.{stop_words};
ghost use Rattle.trend.specs.Step.{refused_at, nosig_met, change_met, MetWord};

use crate::kinds::Next;
use shapes::has_pattern;
use text::kinds::{Refusal, Refused};
use trend_row::kinds::Word;
use trend_row::tests::is_full;

pub fn refuse(refusal: Refusal, place: usize) -> Next
    ensures { result ≡ refused_at refusal place }
{
    Next::End(Err(Refused { refusal, place }))
}

fn is_stop_word(g: &[u8]) -> bool
    ensures { result ≡ has_any stop_words g.now }
{
    let shear = has_pattern(g, b"WS");
    let remarks = has_pattern(g, b"RMK");
    shear | remarks
}

// NOSIG from start up to end, after n changes or after NOSIG.
fn meet_nosig(start: usize, end: usize, n: usize, nosig: bool) -> Next
    ensures { result ≡ nosig_met start end n nosig }
{
    if nosig {
        return refuse(Refusal::Order, start);
    }
    if 0 < n {
        return refuse(Refusal::Disagreement, start);
    }
    Next::Part {
        word: Word::Nosig,
        at: end,
    }
}

// BECMG or TEMPO, after n changes or after NOSIG.
fn meet_change(g: &[u8], start: usize, end: usize, n: usize, nosig: bool) -> Next
    ensures { result ≡ change_met g.now start end n nosig }
{
    if nosig {
        return refuse(Refusal::Disagreement, start);
    }
    if is_full(n) {
        return refuse(Refusal::Limit, start);
    }
    let word = if has_pattern(g, b"BECMG") {
        Word::Becoming
    } else {
        Word::Temporary
    };
    Next::Part { word, at: end }
}

// A word from start up to end, after n changes or after NOSIG: what stood before it must lack nothing.
pub fn meet_word(g: &[u8], start: usize, end: usize, n: usize, nosig: bool, lacking: bool) -> Next
    ensures { MetWord g.now start end n nosig lacking result }
{
    if lacking {
        return refuse(Refusal::Absence, start);
    }
    if is_stop_word(g) {
        return Next::End(Ok(start));
    }
    if has_pattern(g, b"NOSIG") {
        meet_nosig(start, end, n, nosig)
    } else {
        meet_change(g, start, end, n, nosig)
    }
}
