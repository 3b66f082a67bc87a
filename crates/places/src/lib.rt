// The place engine's code, for every report kind: where a group goes in a row of places, whether a required group is absent, and the verdict at the text's
// end. A kind hands over which places have the group's shape, how many groups may stand at each, and which must have one.
#![tactic(auto)]

pub mod kinds;

ghost use Rattle.std.specs.Prelude.{◌≡◌, ◌-◌, cond, eqb, length, get_or, take, drop};
ghost use Rattle.text.specs.Text.{tail_of};
ghost use Rattle.places.specs.Seek.{answers, found_at, owed, refusal_of};
ghost use Rattle.places.specs.Turn.{turn_by, is_unknown, turn_unknown};
ghost use Rattle.places.specs.Answer.{end_verdict};

use kinds::{Found, Turn};
use text::kinds::{Refusal, Refused};

// May a place answer for a group where `count` groups stand and `most` may? One more may stand there, or it repeats and is full; `all`: in any case.
pub fn may_answer(all: bool, count: usize, most: usize) -> bool
    ensures { result ≡ answers all count most }
{
    all | ((count < most) | (1 < most))
}

// Is a required group left to come at a place from `place` up to `end`, where `count` groups stand at `place`?
fn is_owed_before(must: &[bool], place: usize, count: usize, end: usize) -> bool
    ensures { result ≡ owed count (take (end - place) (drop place must.now)) }
{
    let mut k = count;
    for i in place..end.min(must.len()) {
        if must[i] & (k == 0) {
            return true;
        }
        k = 0;
    }
    false
}

// The same up to the row's end.
pub fn is_owed(must: &[bool], place: usize, count: usize) -> bool
    ensures { result ≡ owed count (drop place must.now) }
{
    is_owed_before(must, place, count, must.len())
}

// The refusal of a group that no place takes.
pub fn refusal_of(found: Found) -> Refusal
    ensures { result ≡ refusal_of found }
{
    match found {
        Found::Take { place: _, count: _ } => Refusal::Shape,
        Found::Skips => Refusal::Absence,
        Found::Full => Refusal::Limit,
        Found::Earlier => Refusal::Order,
        Found::Unknown => Refusal::Shape,
    }
}

// How many groups may stand at a place; none past the row.
pub fn most_at(most: &[u8], place: usize) -> usize
    ensures { result ≡ get_or most.now place 0 }
{
    most.get(place).map_or(0, |&m| m as usize)
}

// How many groups stand at a later place, or at the one where reading stands, which has `count`?
fn standing_at(later: usize, place: usize, count: usize) -> usize
    ensures { result ≡ cond (eqb later place) count 0 }
{
    if later == place { count } else { 0 }
}

// What a group comes to at `fit`, the first place from `place` on that answers for it, `count` groups standing at `place`.
pub fn found_at(most: &[u8], must: &[bool], place: usize, count: usize, fit: usize) -> Found
    ensures { result ≡ found_at most.now must.now place count fit }
{
    let standing = standing_at(fit, place, count);
    if standing < most_at(most, fit) {
        if is_owed_before(must, place, count, fit) {
            Found::Skips
        } else {
            Found::Take {
                place: fit,
                count: standing,
            }
        }
    } else {
        Found::Full
    }
}

// Has no place the group's shape?
pub fn is_unknown(found: Found) -> bool
    ensures { result ≡ is_unknown found }
{
    matches!(found, Found::Unknown)
}

// The turn of a group whose shape no place has: a word that halts stops the reading.
pub fn turn_unknown(halts: bool) -> Turn
    ensures { result ≡ turn_unknown halts }
{
    if halts {
        Turn::Halt
    } else {
        Turn::Refused(Refusal::Shape)
    }
}

// The turn of a group that is no stop word, by where it goes.
pub fn turn_by(found: Found) -> Turn
    ensures { result ≡ turn_by found }
{
    match found {
        Found::Take { place, count } => Turn::At { place, count },
        Found::Skips => Turn::Refused(Refusal::Absence),
        Found::Full => Turn::Refused(Refusal::Limit),
        Found::Earlier => Turn::Refused(Refusal::Order),
        Found::Unknown => Turn::Refused(Refusal::Shape),
    }
}

// The verdict where the groups are over: what follows the "=" is refused first, an absence last.
pub fn end_verdict(text: &[u8], lacking: bool) -> Result<usize, Refused>
    ensures { result ≡ end_verdict (tail_of text.now) (length text.now) lacking }
{
    let tail = text::tail(text);
    match tail {
        Some(place) => Err(Refused {
            refusal: Refusal::Shape,
            place,
        }),
        None => {
            if lacking {
                Err(Refused {
                    refusal: Refusal::Absence,
                    place: text.len(),
                })
            } else {
                Ok(text.len())
            }
        }
    }
}
