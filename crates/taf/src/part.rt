// The groups of one part, the main part too, up to the change word that opens the next one or up to the end of the text.
ghost use Rattle.std.specs.Prelude.{◌≡◌};
ghost use Rattle.text.specs.Groups.{part_of};
ghost use Rattle.record.specs.Taf.{blank_leg, set_period, set_body};
ghost use Rattle.shapes.specs.Pattern.{has_any};
ghost use Rattle.body.specs.Met.{Meets};
ghost use Rattle.taf_row.specs.Row.{row, change_words};
ghost use Rattle.taf_row.specs.Tests.{owes_in};
ghost use Rattle.taf.specs.Said.{part_said};
ghost use Rattle.taf.specs.Step.{refused_at, EndedPart, MetWord, PartDone};

use crate::group::{decide, say_at};
use crate::kinds::{Next, Opened, Outset, PartRead};
use crate::word::open_change;
use aerodrome_groups::read::station_of;
use body::kinds::Met;
use body::read::{meet_said, put};
use elements::kinds::Said;
use places::end_verdict;
use places::kinds::Turn;
use record::aerodrome::{Body, Edition, Leg, Period};
use record::blank_aerodrome::blank_leg;
use sky::read::add_layer;
use taf_row::kinds::Part;
use taf_row::row::go_past;
use taf_row::tests::{is_full, owes};
use text::kinds::{Cut, Refusal, Refused};
use weather::read::add_weather;

fn refuse(refusal: Refusal, place: usize) -> Next
    ensures { result ≡ refused_at refusal place }
{
    Next::End(Err(Refused { refusal, place }))
}

// A change word from start up to end, n changes before it: the part before it must lack nothing, and there must be room.
fn after_word(edition: Edition, g: &[u8], start: usize, end: usize, n: usize, lacking: bool) -> Next
    ensures { MetWord edition g.now start end n lacking result }
{
    if lacking {
        return refuse(Refusal::Absence, start);
    }
    if is_full(n) {
        return refuse(Refusal::Limit, start);
    }
    match open_change(edition, g) {
        Ok(Opened { opening, period }) => Next::Change {
            opening,
            period,
            at: end,
        },
        Err(refusal) => refuse(refusal, start),
    }
}

// ---- the part with what follows it, which the loop hands over in one piece

fn with_body(body: Body, leg: Leg) -> Leg
    ensures { result ≡ set_body body leg }
{
    Leg { body, ..leg }
}

fn end_part(text: &[u8], part: Part, place: usize, count: usize, leg: Leg, body: Body) -> PartRead
    ensures { EndedPart text.now part place count (set_body body leg) result }
{
    let leg = with_body(body, leg);
    let next = Next::End(end_verdict(text, owes(part, place, count, leg)));
    PartRead { next, leg }
}

fn meet_word(
    edition: Edition,
    text: &[u8],
    start: usize,
    end: usize,
    n: usize,
    part: Part,
    place: usize,
    count: usize,
    leg: Leg,
    body: Body,
) -> PartRead
    ensures { (result.leg ≡ set_body body leg) × MetWord edition (part_of text.now start end) start end n (owes_in edition part place count (set_body body leg)) result.next }
{
    let leg = with_body(body, leg);
    let g = text::part(text, start, end);
    let next = after_word(edition, g, start, end, n, owes(part, place, count, leg));
    PartRead { next, leg }
}

fn refuse_part(refusal: Refusal, place: usize, leg: Leg) -> PartRead
    ensures { result ≡ record { next = refused_at refusal place; leg = leg } }
{
    PartRead {
        next: refuse(refusal, place),
        leg,
    }
}

// ---- from group to group

// The next group of the text: where it goes in the part's row, and what it says there. Of the part it sees what a reading depends on.
fn meet(
    edition: Edition,
    text: &[u8],
    from: usize,
    part: Part,
    place: usize,
    count: usize,
    body: Body,
) -> Met
    ensures { Meets (row edition part) (has_any (change_words edition)) part_said place count (λ r. r.body ≡ body) text.now from result }
{
    let Cut::Group { start, end } = text::next_group(text, from) else {
        return Met::Over;
    };
    let g = text::part(text, start, end);
    match decide(edition, part, place, count, g) {
        Turn::Halt => Met::Halt { start, end },
        Turn::Refused(refusal) => Met::Refused { refusal, start },
        Turn::At {
            place: there,
            count: standing,
        } => {
            let said = say_at(edition, part, there, standing, g, body);
            meet_said(said, there, standing, start, end)
        }
    }
}

// A part of which only the period is known.
fn begin_leg(period: Period) -> Leg
    ensures { result ≡ set_period period blank_leg }
{
    Leg {
        period,
        ..blank_leg()
    }
}

// A part from a position of the text on; the report that takes it in has n changes. The part is the loop's own, its body beside it, so that what a group says
// is stored where it belongs with no copy of either; nothing of them is asked to find the group's place.
pub fn read_part(edition: Edition, text: &[u8], at: usize, n: usize, outset: Outset) -> PartRead
    ensures { PartDone edition text.now outset.part n outset.stood (set_period outset.period blank_leg) at result }
{
    let part = outset.part;
    let mut leg = begin_leg(outset.period);
    let mut body = leg.body;
    let mut here = 0;
    let mut stood = outset.stood;
    let mut from = at;
    // No `for`: where the next group begins is known only once this one is met.
    loop {
        let met = meet(edition, text, from, part, here, stood, body);
        match met {
            Met::Over => return end_part(text, part, here, stood, leg, body),
            Met::Halt { start, end } => {
                return meet_word(edition, text, start, end, n, part, here, stood, leg, body);
            }
            Met::Refused { refusal, start } => return refuse_part(refusal, start, leg),
            Met::Says(group) => {
                let said = group.said;
                here = go_past(group.place);
                stood = group.count + 1;
                from = group.end;
                let g = text::part(text, group.start, group.end);
                match said {
                    Said::Correction(x) => leg.correction = x,
                    Said::Station => leg.station = station_of(g),
                    Said::Time(x) => leg.time = x,
                    Said::Nil => leg.nil = true,
                    Said::Period(x) => leg.period = x,
                    Said::Cancelled => leg.cancelled = true,
                    Said::Wind(x) => body.wind = x,
                    Said::Visibility(x) => body.visibility = x,
                    Said::Weather(x) => body.weathers = add_weather(group.count, body.weathers, x),
                    Said::Layer(x) => body.sky = add_layer(group.count, body.sky, x),
                    _ => body = put(said, group.count, body),
                }
            }
        }
    }
}
