// Reading a METAR or SPECI: one group after the other, from behind its name on.
ghost use Rattle.std.specs.Prelude.{◌≡◌, length};
ghost use Rattle.text.specs.Text.{tail_of};
ghost use Rattle.text.specs.Groups.{groups_from};
ghost use Rattle.shapes.specs.Pattern.{has_any};
ghost use Rattle.places.specs.Parts.{owes};
ghost use Rattle.record.specs.declared.aerodrome.Observation.{Observation};
ghost use Rattle.record.specs.Observation.{blank_observation, set_special};
ghost use Rattle.body.specs.Met.{Meets};
ghost use Rattle.metar_row.specs.Row.{row, words};
ghost use Rattle.places.specs.Answer.{end_verdict};
ghost use Rattle.metar.specs.Said.{DependsOn, report_said};
ghost use Rattle.trend.specs.Step.{after_part};
ghost use Rattle.trend.specs.declared.kinds.Next.TheVariants as next;
ghost use Rattle.metar.specs.Step.{alone, word_at, left_at, Unrefused, ReadOn};
ghost use Rattle.metar.specs.Read.{main_part, behind_name, answer};

use crate::answer::{is_refused, is_refused_ahead, reading_of, reading_with};
use crate::kinds::{Reading, Standing};
use crate::step::{decide, say_at};
use aerodrome_groups::read::{add_runway, station_of};
use body::kinds::Met;
use body::read::{meet_said, put};
use elements::kinds::Said;
use metar_row::{go_past, musts};
use places::end_verdict;
use places::kinds::Turn;
use record::aerodrome::Observation;
use record::blank_aerodrome::{blank_observation, blank_trend};
use runway_states::read::{add_state, close};
use text::kinds::{Cut, Refusal};
use text::part;
use trend::kinds::{Ahead, Next};
use trend::read::read_trend;
use trend::word::{meet_word, refuse};
use weather::read::add_weather;

// A required group is absent from the observation.
fn owes(here: Standing) -> bool
    ensures { (o : Observation) → result ≡ owes main_part here.place here.count o }
{
    let must = musts();
    places::is_owed(&must, here.place, here.count)
}

// What follows the observation where the groups are over.
fn after_groups(text: &[u8], here: Standing) -> Next
    ensures { (o : Observation) → result ≡ next.End (end_verdict (tail_of text.now) (length text.now) (owes main_part here.place here.count o)) }
{
    Next::End(end_verdict(text, owes(here)))
}

// What follows it at a word from start up to end.
fn after_word(text: &[u8], start: usize, end: usize, here: Standing) -> Next
    ensures { (o : Observation) → word_at text.now start end here.place here.count o ≡ after_part text.now 0 (alone o) result }
{
    let g = part(text, start, end);
    meet_word(g, start, end, 0, false, owes(here))
}

// What follows it where the next group is not taken.
fn follow(text: &[u8], met: Met, here: Standing) -> Next
    ensures { (o : Observation) → left_at text.now met here.place here.count o ≡ after_part text.now 0 (alone o) result }
{
    match met {
        Met::Over => after_groups(text, here),
        Met::Halt { start, end } => after_word(text, start, end, here),
        Met::Refused { refusal, start } => refuse(refusal, start),
        Met::Says(group) => refuse(Refusal::Shape, group.start),
    }
}

// A refused text has no trend.
fn unless_refused(ahead: Ahead) -> Ahead
    ensures { Unrefused ahead result }
{
    if is_refused(ahead.verdict) {
        return Ahead {
            trend: blank_trend(),
            ..ahead
        };
    }
    ahead
}

// The verdict on the whole text and its trend, by what follows the observation; the trend is blank where there is none, or the text is refused.
fn read_on(text: &[u8], next: Next) -> Ahead
    ensures { ReadOn text.now next result }
{
    match next {
        Next::End(verdict) => Ahead {
            verdict,
            trend: blank_trend(),
        },
        Next::Part { word, at } => unless_refused(read_trend(text, at, word)),
    }
}

// The next group of the text: where it goes in the row, and what it says there. Of the observation so far it sees what a reading depends on.
fn meet(text: &[u8], here: Standing, so_far: Observation) -> Met
    ensures { Meets row (has_any words) report_said here.place here.count (DependsOn so_far.automatic so_far.body so_far.states.count) text.now here.from result }
{
    let Cut::Group { start, end } = text::next_group(text, here.from) else {
        return Met::Over;
    };
    let g = part(text, start, end);
    match decide(here.place, here.count, g) {
        Turn::Halt => Met::Halt { start, end },
        Turn::Refused(refusal) => Met::Refused { refusal, start },
        Turn::At { place, count } => {
            let said = say_at(
                place,
                count,
                g,
                so_far.automatic,
                so_far.body,
                so_far.states.count,
            );
            meet_said(said, place, count, start, end)
        }
    }
}

fn stand_at(place: usize, count: usize, from: usize) -> Standing
    ensures { result ≡ record { place = place; count = count; from = from } }
{
    Standing { place, count, from }
}

// An observation of which only the name has been read.
fn begin(special: bool) -> Observation
    ensures { result ≡ set_special special blank_observation }
{
    let mut report = blank_observation();
    report.special = special;
    report
}

// What the groups come to, from a position behind METAR or SPECI on, which has stood at the row's first place. The observation is the loop's own: what
// each group says is stored in it, and nothing of it is asked to find the group's place. A refused text's observation is made blank where it stands, and
// where no trend follows none is handed over: blank parts that are made elsewhere have the compiler copy the whole report field by field.
pub fn read_from(text: &[u8], at: usize, special: bool) -> Reading
    ensures { result ≡ answer (behind_name special (tail_of text.now) (length text.now) (groups_from text.now at)) }
{
    let mut report = begin(special);
    let mut here = stand_at(0, 1, at);
    loop {
        let met = meet(text, here, report);
        let Met::Says(next) = met else {
            let after = follow(text, met, here);
            let Next::End(verdict) = after else {
                let ahead = read_on(text, after);
                if is_refused_ahead(ahead) {
                    report = blank_observation();
                }
                return reading_with(report, ahead);
            };
            if is_refused(verdict) {
                report = blank_observation();
            }
            return reading_of(verdict, report, blank_trend());
        };
        let said = next.said;
        here = stand_at(go_past(next.place), next.count + 1, next.end);
        match said {
            Said::Special(x) => report.special = x,
            Said::Corrected => report.corrected = true,
            Said::Station => report.station = station_of(part(text, next.start, next.end)),
            Said::Time(x) => report.time = x,
            Said::Nil => report.nil = true,
            Said::Automatic => report.automatic = true,
            Said::Variation(x) => report.variation = x,
            Said::Runway(x) => report.runways = add_runway(next.count, report.runways, x),
            Said::Temperatures(x) => report.temperatures = x,
            Said::Qnh(x) => report.qnh = x,
            Said::Recent(x) => report.recents = add_weather(next.count, report.recents, x),
            Said::State(x) => report.states = add_state(next.count, report.states, x),
            Said::Snoclo => report.states = close(report.states),
            _ => report.body = put(said, next.count, report.body),
        }
    }
}
