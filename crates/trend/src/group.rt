// One group of a trend's change: where it goes in the row of places, which what was read before has no part in, and what it says there.
ghost use Rattle.std.specs.Prelude.{◌≡◌, Bool};
ghost use Rattle.shapes.specs.Pattern.{has_any};
ghost use Rattle.places.specs.Turn.{turn_at};
ghost use Rattle.metar_row.specs.Row.{words};
ghost use Rattle.trend_row.specs.Row.{row};
ghost use Rattle.trend.specs.Said.{Says};

use body::read::say;
use elements::kinds::Said;
use metar_row::is_word;
use places::kinds::Turn;
use places::turn_by;
use record::aerodrome::{Body, Times};
use text::kinds::Refusal;
use trend_row::row::find;
use trend_row::times::{read_at, read_from, read_until};

// The group's turn, where `count` groups stand at `place`.
pub fn decide(free: bool, place: usize, count: usize, g: &[u8]) -> Turn
    ensures { result ≡ turn_at (row free) (has_any words) place count g.now }
{
    if 8 <= place {
        return Turn::Refused(Refusal::Shape);
    }
    if is_word(g) {
        return Turn::Halt;
    }
    turn_by(find(free, place, count, g))
}

// What the group says at its place, where `count` groups stand; the times and the body are those of the change so far.
pub fn say_at(place: usize, count: usize, g: &[u8], times: Times, b: Body) -> Said
    ensures { (free : Bool) → Says free place count g.now times b result }
{
    match place {
        0 => Said::Refused(Refusal::Order),
        1 => read_from(g),
        2 => read_until(g, times),
        3 => read_at(g, times),
        4 => say(0, true, true, false, count, g, b),
        5 => say(1, true, true, false, count, g, b),
        6 => say(2, true, true, false, count, g, b),
        7 => say(3, true, true, false, count, g, b),
        _ => Said::Refused(Refusal::Shape),
    }
}
