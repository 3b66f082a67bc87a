// Reading a TAF, from behind its name on: the main part and the change groups. The change reader and the body reader call each other: positions go down,
// what follows a part is decided before any list of changes exists, and the list is built on the way back.
ghost use Rattle.std.specs.Prelude.{◌≡◌, ◌<◌, length};
ghost use Rattle.text.specs.Text.{tail_of};
ghost use Rattle.text.specs.Groups.{groups_from};
ghost use Rattle.record.specs.declared.aerodrome.Edition.TheVariants as edition;
ghost use Rattle.record.specs.Taf.{blank_taf};
ghost use Rattle.taf.specs.Read.{behind_name, answer};
ghost use Rattle.places.specs.Answer.{outcome_of};
ghost use Rattle.taf.specs.Step.{none_ahead, change_from, body_from, ReadAhead};

use crate::answer;
use crate::kinds::{Ahead, Next, Outset, Reading};
use crate::part::read_part;
use crate::word::{begin_part, change_of, part_of};
use record::aerodrome::{Changes, Edition, Leg, Opening, Period, Taf};
use record::blank_aerodrome::{blank_leg, blank_taf};
use taf_row::kinds::Part;
use text::kinds::Refused;

// No change is read ahead.
fn none(verdict: Result<usize, Refused>, count: usize) -> Ahead
    ensures { result ≡ none_ahead verdict count }
{
    let changes = blank_taf().changes;
    let items = changes.items;
    Ahead {
        verdict,
        items,
        count,
    }
}

// A change's part, n changes before it, and the changes after it.
#[cycle(read_body_read_change)]
fn read_body(
    edition: Edition,
    text: &[u8],
    at: usize,
    n: usize,
    opening: Opening,
    period: Period,
) -> Ahead
    requires { n < 16 }
    ensures { ReadAhead n (body_from edition text.now n opening period at) result }
{
    let part = part_of(opening);
    let outset = Outset {
        part,
        stood: 0,
        period,
    };
    let read = read_part(edition, text, at, n + 1, outset);
    let change = change_of(opening, read.leg);
    let mut ahead = match read.next {
        Next::End(verdict) => none(verdict, n + 1),
        Next::Change {
            opening: other,
            period: its,
            at: behind,
        } => read_change(edition, text, behind, n + 1, other, its),
    };
    ahead.items[n] = change;
    ahead
}

// A change from behind its word on, n changes before it: TEMPO at once after PROB30 or PROB40 belongs to the word.
#[cycle(read_body_read_change)]
fn read_change(
    edition: Edition,
    text: &[u8],
    at: usize,
    n: usize,
    opening: Opening,
    period: Period,
) -> Ahead
    requires { n < 16 }
    ensures { ReadAhead n (change_from edition text.now n opening period at) result }
{
    let start = begin_part(text, at, opening);
    let both = start.opening;
    read_body(edition, text, start.at, n, both, period)
}

// The report of a main part alone.
fn answer_alone(edition: Edition, verdict: Result<usize, Refused>, leg: Leg) -> Reading
    ensures { result ≡ answer (outcome_of verdict (record { edition = edition; leg = leg; changes = blank_taf.changes })) }
{
    match verdict {
        Ok(rest) => {
            let changes = blank_taf().changes;
            answer::accept(
                rest,
                Taf {
                    edition,
                    leg,
                    changes,
                },
            )
        }
        Err(Refused { refusal, place }) => answer::refuse(refusal, place),
    }
}

// The report of a main part and the changes that were read ahead.
fn answer_all(edition: Edition, leg: Leg, ahead: Ahead) -> Reading
    ensures { result ≡ answer (outcome_of ahead.verdict (record { edition = edition; leg = leg; changes = record { items = ahead.items; count = ahead.count } })) }
{
    match ahead.verdict {
        Ok(rest) => {
            let items = ahead.items;
            let changes = Changes {
                items,
                count: ahead.count,
            };
            answer::accept(
                rest,
                Taf {
                    edition,
                    leg,
                    changes,
                },
            )
        }
        Err(Refused { refusal, place }) => answer::refuse(refusal, place),
    }
}

// What the groups come to in an edition, from a position behind TAF on, which has stood at the main row's first place.
pub fn read_from_in(edition: Edition, text: &[u8], at: usize) -> Reading
    ensures { result ≡ answer (behind_name edition (tail_of text.now) (length text.now) (groups_from text.now at)) }
{
    let outset = Outset {
        part: Part::Main,
        stood: 1,
        period: blank_leg().period,
    };
    let read = read_part(edition, text, at, 0, outset);
    match read.next {
        Next::End(verdict) => answer_alone(edition, verdict, read.leg),
        Next::Change {
            opening,
            period,
            at: behind,
        } => answer_all(
            edition,
            read.leg,
            read_change(edition, text, behind, 0, opening, period),
        ),
    }
}

// In the present edition.
pub fn read_from(text: &[u8], at: usize) -> Reading
    ensures { result ≡ answer (behind_name edition.Present (tail_of text.now) (length text.now) (groups_from text.now at)) }
{
    read_from_in(Edition::Present, text, at)
}
