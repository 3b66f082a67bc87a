// What the writer judges of a body, element by element: first the ranges (refusal 11), then the agreement (refusal 7).
ghost use Rattle.std.specs.Prelude.{◌≡◌, Bool, cond, not, ◌&&◌, Ok};
ghost use Rattle.elements.specs.Body.{wind_judged, visibility_judged, weather_judged, sky_judged, judge_body, has_element};

use record::aerodrome::Body;
use sky::judge::judge_sky;
use text::judge::judge;
use text::kinds::Refusal;
use weather_write::judge::{count_fits, judge_weathers};
use wind::judge::{judge_visibility, judge_wind};
use wind::read::is_cavok;

// A wind or visibility that need not stand.
fn unless_absent(required: bool, absent: bool, j: Result<(), Refusal>) -> Result<(), Refusal>
    ensures { result ≡ cond (not required && absent) (Ok tt) j }
{
    if !required & absent { Ok(()) } else { j }
}

pub fn wind_judged(forecast: bool, required: bool, b: Body) -> Result<(), Refusal>
    ensures { (may automatic silent : Bool) → result ≡ wind_judged (record { forecast = forecast; required = required; may_nsw = may; automatic = automatic; silent = silent }) b }
{
    let wind = b.wind;
    unless_absent(required, wind.is_blank(), judge_wind(forecast, wind))
}

pub fn visibility_judged(forecast: bool, required: bool, b: Body) -> Result<(), Refusal>
    ensures { (may automatic silent : Bool) → result ≡ visibility_judged (record { forecast = forecast; required = required; may_nsw = may; automatic = automatic; silent = silent }) b }
{
    let visibility = b.visibility;
    let view = visibility.is;
    unless_absent(
        required,
        view.is_missing(),
        judge_visibility(forecast, visibility),
    )
}

// NSW where it may stand, and not beside CAVOK; then the weathers, beside neither.
pub fn weather_judged(forecast: bool, may: bool, automatic: bool, b: Body) -> Result<(), Refusal>
    ensures { (required silent : Bool) → result ≡ weather_judged (record { forecast = forecast; required = required; may_nsw = may; automatic = automatic; silent = silent }) b }
{
    let visibility = b.visibility;
    let weathers = b.weathers;
    let nsw = b.nsw;
    let cavok = is_cavok(visibility);
    if !nsw | (may & !cavok) {
        judge_weathers(forecast, automatic, cavok | nsw, weathers)
    } else {
        judge(count_fits(weathers), false)
    }
}

pub fn sky_judged(forecast: bool, b: Body) -> Result<(), Refusal>
    ensures { (required may automatic silent : Bool) → result ≡ sky_judged (record { forecast = forecast; required = required; may_nsw = may; automatic = automatic; silent = silent }) b }
{
    let visibility = b.visibility;
    let sky = b.sky;
    judge_sky(forecast, is_cavok(visibility), sky)
}

// The elements in written order.
pub fn judge_body(
    forecast: bool,
    required: bool,
    may: bool,
    automatic: bool,
    b: Body,
) -> Result<(), Refusal>
    ensures { (silent : Bool) → result ≡ judge_body (record { forecast = forecast; required = required; may_nsw = may; automatic = automatic; silent = silent }) b }
{
    wind_judged(forecast, required, b)?;
    visibility_judged(forecast, required, b)?;
    weather_judged(forecast, may, automatic, b)?;
    sky_judged(forecast, b)
}

// Is there wind, visibility, weather, NSW or sky?
pub fn has_element(b: Body) -> bool
    ensures { result ≡ has_element b }
{
    let wind = b.wind;
    let unit = wind.unit;
    let visibility = b.visibility;
    let view = visibility.is;
    let sky = b.sky;
    let cover = sky.cover;
    let blown = !unit.is_missing();
    let unseen = view.is_missing();
    let layers = cover.is_layers();
    blown | !unseen | (0 < b.weathers.count) | b.nsw | !layers | (0 < sky.count)
}
