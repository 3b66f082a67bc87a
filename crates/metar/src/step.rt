// One group: where it goes in the row of places, which the record has no part in, what it says there, and the record with it.
ghost use Rattle.std.specs.Prelude.{◌≡◌};
ghost use Rattle.shapes.specs.Pattern.{has_any};
ghost use Rattle.places.specs.Turn.{turn_at};
ghost use Rattle.elements.specs.declared.kinds.Said.TheVariants as said;
ghost use Rattle.elements.specs.Weather.{read_recent};
ghost use Rattle.elements.specs.Answers.{as_said};
ghost use Rattle.metar_row.specs.Row.{row, words};
ghost use Rattle.metar.specs.Said.{Says};

use aerodrome_groups::read::{read_qnh, read_runway, read_temperatures, read_time};
use body::read::say;
use elements::kinds::Said;
use metar_row::{find, is_word};
use places::kinds::Turn;
use places::{is_unknown, turn_by, turn_unknown};
use record::aerodrome::Body;
use runway_states::read::{read_beside, read_state, say_snoclo};
use shapes::has_pattern;
use text::kinds::Refusal;
use weather::read::read_recent;
use wind::read::read_variation;

// The group's turn, where `count` groups stand at `place`. No word has the shape of a place, so it is asked for only where no place has the group's shape.
pub fn decide(place: usize, count: usize, g: &[u8]) -> Turn
    ensures { result ≡ turn_at row (has_any words) place count g.now }
{
    if 19 <= place {
        return Turn::Refused(Refusal::Shape);
    }
    let found = find(place, count, g);
    if is_unknown(found) {
        return turn_unknown(is_word(g));
    }
    turn_by(found)
}

// Recent weather.
fn say_recent(automatic: bool, g: &[u8]) -> Said
    ensures { result ≡ as_said said.Recent (read_recent automatic g.now) }
{
    match read_recent(automatic, g) {
        Ok(w) => Said::Recent(w),
        Err(refusal) => Said::Refused(refusal),
    }
}

// What the group says at its place, where `count` groups stand; `automatic`, the body and how many runway states there are, are those of the record so far.
pub fn say_at(place: usize, count: usize, g: &[u8], automatic: bool, b: Body, states: usize) -> Said
    ensures { Says place count g.now automatic b states result }
{
    match place {
        0 => Said::Special(has_pattern(g, b"SPECI")),
        1 => Said::Corrected,
        2 => Said::Station,
        3 => read_time(g),
        4 => Said::Nil,
        5 => Said::Automatic,
        6 => say(0, false, false, automatic, count, g, b),
        7 => read_variation(g),
        8 => say(1, false, false, automatic, count, g, b),
        9 => read_runway(g),
        10 => say(2, false, false, automatic, count, g, b),
        11 => say(3, false, false, automatic, count, g, b),
        12 => read_temperatures(g),
        13 => read_qnh(g),
        14 => say_recent(automatic, g),
        15 => read_state(g),
        16 => say_snoclo(states),
        17 => read_beside(g),
        18 => Said::Refused(Refusal::Order),
        _ => Said::Refused(Refusal::Shape),
    }
}
