// A METAR or SPECI written as its canonical text, over a lent buffer: all of it, or nothing.
ghost use Rattle.std.specs.Prelude.{◌≡◌, cond, ◌∷◌, [], ◌++◌, ◌≤◌, length, take, drop, Ok};
ghost use Rattle.figures.specs.Put.{Put};
ghost use Rattle.figures.specs.Quote.{bytes};
ghost use Rattle.text.specs.Groups.{written};
ghost use Rattle.places.specs.Engine.{written as groups_at};
ghost use Rattle.metar_row.specs.Row.{row};
ghost use Rattle.metar.specs.Write.{judge_of, groups_of, written_of, buffer_of};

use crate::judge::judge;
use crate::trends::put_trend;
use aerodrome_groups::write::{put_qnh, put_runways, put_station, put_temperatures, put_time};
use body::write::{put_visibility_unless, put_weather_or_nsw, put_wind_unless};
use record::aerodrome::{Metar, Observation};
use runway_states::write::put_states;
use sky::write::put_sky;
use text::kinds::Refusal;
use text::write::{close_report, deliver, put_group, put_if};
use weather_write::write::put_recents;
use wind::write::put_variation;

fn put_name(out: &mut [u8], special: bool) -> usize
    ensures { Put out.old 0 (written 0 (cond special (bytes "SPECI") (bytes "METAR") ∷ [])) result out.new }
{
    if special {
        put_group(out, 0, b"SPECI")
    } else {
        put_group(out, 0, b"METAR")
    }
}

// METAR or SPECI, COR, CCCC, YYGGggZ, NIL, AUTO: the first six places.
fn put_head(out: &mut [u8], r: Observation) -> usize
    ensures { Put out.old 0 (written 0 (groups_at (take 6 row) r)) result out.new }
{
    let named = put_name(out, r.special);
    let marked = put_if(out, named, r.corrected, b"COR");
    let sited = put_station(out, marked, r.station);
    let timed = put_time(out, sited, r.time);
    let ended = put_if(out, timed, r.nil, b"NIL");
    put_if(out, ended, r.automatic, b"AUTO")
}

// Wind, its variation, visibility and runway ranges: the next four. A NIL report is written without wind and visibility.
fn put_seen(out: &mut [u8], at: usize, r: Observation) -> usize
    ensures { Put out.old at (written at (groups_at (take 4 (drop 6 row)) r)) result out.new }
{
    let blown = put_wind_unless(out, at, r.nil, r.body.wind);
    let varied = put_variation(out, blown, r.variation);
    let seen = put_visibility_unless(out, varied, r.nil, r.body.visibility);
    put_runways(out, seen, r.runways)
}

// T/Td, Q, recent weather and runway states: the last places. A NIL report is written without T/Td and Q.
fn put_last(out: &mut [u8], at: usize, r: Observation) -> usize
    ensures { Put out.old at (written at (groups_at (drop 12 row) r)) result out.new }
{
    if r.nil {
        let rained = put_recents(out, at, r.recents);
        put_states(out, rained, r.states)
    } else {
        let warmed = put_temperatures(out, at, r.temperatures);
        let pressed = put_qnh(out, warmed, r.qnh);
        let rained = put_recents(out, pressed, r.recents);
        put_states(out, rained, r.states)
    }
}

// The observation, as it stands before the trend.
fn put_observation(out: &mut [u8], r: Observation) -> usize
    ensures { Put out.old 0 (written 0 (groups_at row r)) result out.new }
{
    let headed = put_head(out, r);
    let seen = put_seen(out, headed, r);
    let weathered = put_weather_or_nsw(out, seen, r.body);
    let clouded = put_sky(out, weathered, r.body.sky);
    put_last(out, clouded, r)
}

// The whole report, its "=" too.
fn put_report(out: &mut [u8], r: Metar) -> usize
    requires { r.trend.count ≤ 3 }
    ensures { Put out.old 0 (written 0 (groups_of r) ++ (61 ∷ [])) result out.new }
{
    let observed = put_observation(out, r.observation);
    let told = put_trend(out, observed, r.trend);
    close_report(out, told)
}

// A record that is judged fine: its text, at most 704 bytes, is made first, so that its length is known before the lent buffer is touched.
fn write_fine(r: Metar, out: &mut [u8]) -> Result<usize, Refusal>
    requires { judge_of r ≡ Ok tt }
    ensures { (result ≡ written_of r (length out.old)) × (out.new ≡ buffer_of r out.old) }
{
    let mut text = [0u8; 704];
    let end = put_report(&mut text, r);
    deliver(&text[..end], out)
}

pub fn write(r: Metar, out: &mut [u8]) -> Result<usize, Refusal>
    ensures { (result ≡ written_of r (length out.old)) × (out.new ≡ buffer_of r out.old) }
{
    judge(r)?;
    write_fine(r, out)
}
