// What the writer judges of a wind, of its variation and of a visibility: first their ranges (refusal 11), then their agreement (refusal 7). In a
// TAF nothing is missing.
ghost use Rattle.std.specs.Prelude.{◌≡◌};
ghost use Rattle.elements.specs.Wind.{most_speed, speed_fits, gust_fits, wind_fits, judge_wind, extremes_fit, extremes_agree, judge_variation};
ghost use Rattle.elements.specs.Visibility.{view_fits, judge_visibility};

use crate::directions::degrees_text;
use record::aerodrome::{Extremes, Unit, Variation, View, Visibility, Wind};
use record::values::{Direction, Speed};
use text::judge::judge;
use text::kinds::Refusal;
use wind_values::agree::wind_agrees;
use wind_values::speeds::{class_speed, last_exact};

// ---- wind

// The greatest number that a record may hold.
fn most_speed(unit: Unit) -> u32
    ensures { result ≡ most_speed unit }
{
    match unit {
        Unit::Missing => 0,
        Unit::Knots => 199,
        Unit::MetresPerSecond => 199,
        Unit::KilometresPerHour => 999,
    }
}

fn speed_fits(unit: Unit, s: Speed) -> bool
    ensures { result ≡ speed_fits unit s }
{
    match s {
        Speed::Missing => false,
        Speed::Is(n) => n <= most_speed(unit),
        Speed::Above(n) => n == last_exact(unit),
    }
}

fn gust_fits(unit: Unit, g: Speed) -> bool
    ensures { result ≡ gust_fits unit g }
{
    g.is_missing() | speed_fits(unit, g)
}

// A wind is missing as a whole, or its speed is there.
fn wind_fits(forecast: bool, unit: Unit, d: Direction, s: Speed, g: Speed) -> bool
    ensures { result ≡ wind_fits forecast unit d s g }
{
    match d {
        Direction::Missing => !forecast & s.is_missing() & g.is_missing(),
        Direction::Calm => speed_fits(unit, s) & gust_fits(unit, g),
        Direction::Variable => speed_fits(unit, s) & gust_fits(unit, g),
        Direction::Degrees(degrees) => (degrees <= 359) & speed_fits(unit, s) & gust_fits(unit, g),
    }
}

// The parts agree by the figures that would be written.
#[tactic(auto, unfolding(elements::specs::Wind::judge_wind))]
pub fn judge_wind(forecast: bool, w: Wind) -> Result<(), Refusal>
    ensures { result ≡ judge_wind forecast w }
{
    let unit = w.unit;
    judge(
        !unit.is_missing() & wind_fits(forecast, unit, w.direction, w.speed, w.gust),
        wind_agrees(
            w.direction,
            class_speed(unit, w.speed),
            class_speed(unit, w.gust),
        ),
    )
}

// ---- variation

fn extremes_fit(e: Option<Extremes>) -> bool
    ensures { result ≡ extremes_fit e }
{
    match e {
        None => true,
        Some(Extremes { from, to }) => (from <= 359) & (to <= 359),
    }
}

// On the figures that would be written.
fn extremes_agree(e: Option<Extremes>) -> bool
    ensures { result ≡ extremes_agree e }
{
    match e {
        None => true,
        Some(Extremes { from, to }) => degrees_text(from) != degrees_text(to),
    }
}

#[tactic(auto, unfolding(elements::specs::Wind::judge_variation))]
pub fn judge_variation(v: Variation) -> Result<(), Refusal>
    ensures { result ≡ judge_variation v }
{
    judge(extremes_fit(v.is), extremes_agree(v.is))
}

// ---- visibility

fn view_fits(forecast: bool, v: View) -> bool
    ensures { result ≡ view_fits forecast v }
{
    match v {
        View::Missing => !forecast,
        View::Cavok => true,
        View::Metres(m) => m <= 99999,
    }
}

#[tactic(auto, unfolding(elements::specs::Visibility::judge_visibility))]
pub fn judge_visibility(forecast: bool, v: Visibility) -> Result<(), Refusal>
    ensures { result ≡ judge_visibility forecast v }
{
    judge(view_fits(forecast, v.is), true)
}
