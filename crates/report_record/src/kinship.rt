// Whether a second report is a correction of a first, by their records.
ghost use Rattle.std.specs.Prelude.{◌≡◌};
ghost use Rattle.report_record.specs.Kinship.{same_number, same_instant, same_station, alike, is_corrected, metar_corrects, taf_corrects, corrects, judge_standing};

use crate::kinds::{Report, Stands};
use record::aerodrome::{Correction, Instant, Metar, Station, Taf};

fn same_number(a: Option<u32>, b: Option<u32>) -> bool
    ensures { result ≡ same_number a b }
{
    a == b
}

// Day, hour and minute.
fn same_instant(a: Instant, b: Instant) -> bool
    ensures { result ≡ same_instant a b }
{
    same_number(a.day, b.day) & same_number(a.hour, b.hour) & same_number(a.minute, b.minute)
}

fn same_station(a: Station, b: Station) -> bool
    ensures { result ≡ same_station a b }
{
    a.letters == b.letters
}

// COR, and not AMD.
fn is_corrected(c: Correction) -> bool
    ensures { result ≡ is_corrected c }
{
    matches!(c, Correction::Corrected)
}

// Both or neither.
fn is_alike(a: bool, b: bool) -> bool
    ensures { result ≡ alike a b }
{
    a == b
}

// METAR for METAR, SPECI for SPECI.
fn metar_corrects(first: Metar, second: Metar) -> bool
    ensures { result ≡ metar_corrects first second }
{
    let before = first.observation;
    let after = second.observation;
    after.corrected
        & is_alike(before.special, after.special)
        & same_station(before.station, after.station)
        & same_instant(before.time, after.time)
}

fn taf_corrects(first: Taf, second: Taf) -> bool
    ensures { result ≡ taf_corrects first second }
{
    let before = first.leg;
    let after = second.leg;
    is_corrected(after.correction)
        & same_station(before.station, after.station)
        & same_instant(before.time, after.time)
}

#[tactic(auto, unfolding(crate::specs::Kinship::corrects))]
fn corrects(first: Report, second: Report) -> bool
    ensures { result ≡ corrects first second }
{
    let observed = first.kind.is_observed() & second.kind.is_observed();
    let forecast = first.kind.is_forecast() & second.kind.is_forecast();
    (observed & metar_corrects(first.observed, second.observed))
        | (forecast & taf_corrects(first.forecast, second.forecast))
}

// The kind of a refused text's record is missing, so that a report of these kinds was accepted.
#[tactic(auto, unfolding(crate::specs::Kinship::judge_standing))]
pub fn judge_standing(first: Report, second: Report) -> Stands
    ensures { result ≡ judge_standing first second }
{
    if corrects(first, second) {
        Stands::Second
    } else if first.kind.is_observed() | first.kind.is_forecast() {
        Stands::First
    } else {
        Stands::Neither
    }
}
