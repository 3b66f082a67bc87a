// What a group of wind, of variation or of visibility says. A caller holds the group to its shape first; what has another shape is refused as a
// wrong figure.
ghost use Rattle.std.specs.Prelude.{◌≡◌};
ghost use Rattle.shapes.specs.Pattern.{has_pattern, has_any};
ghost use Rattle.shapes.specs.Shape.{has_shape, scan_of};
ghost use Rattle.scales.specs.Metres.{visibility, metres_reading};
ghost use Rattle.elements.specs.Parts.{is_missing};
ghost use Rattle.elements.specs.Wind.{wind_shape, variation_shape, unit_of, speed_of, gust_of, direction_of, is_no_wind, wind_by, read_wind, read_variation};
ghost use Rattle.elements.specs.Visibility.{visibility_shapes, read_visibility, is_cavok};
ghost use Rattle.elements.specs.Answers.{as_wind, as_variation, as_visibility};
ghost use Rattle.wind.specs.Parts.{seen_by, unseen};

use crate::directions::is_tens;
use elements::kinds::Said;
use figures::field;
use figures::kinds::Field;
use record::aerodrome::{Extremes, Unit, Variation, View, Visibility, Wind};
use record::values::{Direction, Speed};
use shapes::has_pattern;
use shapes::kinds::{Scan, Value};
use shapes::scan::{absent, figures_or, nothing, scanned, word_or};
use text::kinds::Refusal;
use wind_values::agree::wind_agrees;
use wind_values::speeds::{in_width, speed_by};

// ---- wind

// Direction, speed, gust and unit: "###|VRB ###|##|P###|P## G###|G##|GP###|GP##| KT|MPS|KMH" by code made for it.
fn scan_wind(g: &[u8]) -> Scan
    ensures { result ≡ scan_of wind_shape g.now }
{
    let none = absent(g);
    let variable = word_or(g, 0, 1, b"VRB", none);
    let direction = figures_or(g, 0, 0, b"###", 0, 3, variable);
    let at = direction.past;
    let above_two = figures_or(g, at, 3, b"P##", 1, 2, none);
    let above_three = figures_or(g, at, 2, b"P###", 1, 3, above_two);
    let two_figures = figures_or(g, at, 1, b"##", 0, 2, above_three);
    let speed = figures_or(g, at, 0, b"###", 0, 3, two_figures);
    let at = speed.past;
    let steady = nothing(4, at);
    let above_two = figures_or(g, at, 3, b"GP##", 2, 2, steady);
    let above_three = figures_or(g, at, 2, b"GP###", 2, 3, above_two);
    let two_figures = figures_or(g, at, 1, b"G##", 1, 2, above_three);
    let gust = figures_or(g, at, 0, b"G###", 1, 3, two_figures);
    let at = gust.past;
    let kilometres = word_or(g, at, 2, b"KMH", none);
    let metres = word_or(g, at, 1, b"MPS", kilometres);
    let unit = word_or(g, at, 0, b"KT", metres);
    scanned(g, unit.past, direction, speed, gust, unit, none, none)
}

#[tactic(auto, unfolding(shapes::specs::Shape::has_shape))]
pub fn has_wind(g: &[u8]) -> bool
    ensures { result ≡ has_shape wind_shape g.now }
{
    scan_wind(g).fits
}

fn unit_of(which: usize) -> Unit
    ensures { result ≡ unit_of which }
{
    if which == 0 {
        Unit::Knots
    } else if which == 1 {
        Unit::MetresPerSecond
    } else {
        Unit::KilometresPerHour
    }
}

fn is_missing(f: Field) -> bool
    ensures { result ≡ is_missing f }
{
    match f {
        Field::Missing => true,
        _ => false,
    }
}

fn speed_of(unit: Unit, v: Value) -> Result<Speed, Refusal>
    ensures { result ≡ speed_of unit v }
{
    let Field::Number(n) = v.field else {
        return Err(Refusal::Figure);
    };
    if in_width(v.which, n) {
        speed_by(unit, v.which, n)
    } else {
        Err(Refusal::Figure)
    }
}

// Alternative number 4 of the gust is nothing.
fn gust_of(unit: Unit, v: Value) -> Result<Speed, Refusal>
    ensures { result ≡ gust_of unit v }
{
    if v.which == 4 {
        Ok(Speed::Missing)
    } else {
        speed_of(unit, v)
    }
}

// Alternative number 1 of the direction is VRB.
fn direction_of(v: Value) -> Result<Direction, Refusal>
    ensures { result ≡ direction_of v }
{
    if v.which == 1 {
        return Ok(Direction::Variable);
    }
    let Field::Number(d) = v.field else {
        return Err(Refusal::Figure);
    };
    if d == 0 {
        return Ok(Direction::Calm);
    }
    if is_tens(d) {
        Ok(Direction::Degrees(d % 360))
    } else {
        Err(Refusal::Figure)
    }
}

// ///// and unit
fn is_no_wind(d: Value, s: Value, g: Value) -> bool
    ensures { result ≡ is_no_wind d s g }
{
    (d.which == 0) & is_missing(d.field) & (s.which == 1) & is_missing(s.field) & (g.which == 4)
}

// What the parts of the group say together: the wind, or the first refusal among them.
#[tactic(auto, unfolding(elements::specs::Wind::wind_by))]
fn wind_by(forecast: bool, unit: Unit, d: Value, s: Value, g: Value) -> Result<Wind, Refusal>
    ensures { result ≡ wind_by forecast unit d s g }
{
    if is_no_wind(d, s, g) {
        if forecast {
            return Err(Refusal::Figure);
        }
        return Ok(Wind {
            direction: Direction::Missing,
            speed: Speed::Missing,
            gust: Speed::Missing,
            unit,
        });
    }
    let direction = direction_of(d)?;
    let speed = speed_of(unit, s)?;
    let gust = gust_of(unit, g)?;
    if wind_agrees(direction, speed, gust) {
        Ok(Wind {
            direction,
            speed,
            gust,
            unit,
        })
    } else {
        Err(Refusal::Disagreement)
    }
}

pub fn read_wind(forecast: bool, g: &[u8]) -> Said
    ensures { result ≡ as_wind (read_wind forecast g.now) }
{
    let [direction, speed, gust, unit, ..] = scan_wind(g).values;
    match wind_by(forecast, unit_of(unit.which), direction, speed, gust) {
        Ok(wind) => Said::Wind(wind),
        Err(refusal) => Said::Refused(refusal),
    }
}

// ---- variation

pub fn has_variation(g: &[u8]) -> bool
    ensures { result ≡ has_pattern g.now variation_shape }
{
    has_pattern(g, b"###V###")
}

// dddVddd
#[tactic(auto, unfolding(elements::specs::Wind::read_variation))]
pub fn read_variation(g: &[u8]) -> Said
    ensures { result ≡ as_variation (read_variation g.now) }
{
    let Field::Number(a) = field(g, 0, 3) else {
        return Said::Refused(Refusal::Figure);
    };
    let Field::Number(b) = field(g, 4, 3) else {
        return Said::Refused(Refusal::Figure);
    };
    if is_tens(a) & is_tens(b) {
        if a == b {
            Said::Refused(Refusal::Disagreement)
        } else {
            let from = a % 360;
            let to = b % 360;
            Said::Variation(Variation {
                is: Some(Extremes { from, to }),
            })
        }
    } else {
        Said::Refused(Refusal::Figure)
    }
}

// ---- visibility

#[tactic(auto, unfolding(shapes::specs::Pattern::has_any))]
pub fn has_visibility(g: &[u8]) -> bool
    ensures { result ≡ has_any visibility_shapes g.now }
{
    has_pattern(g, b"####") | has_pattern(g, b"CAVOK")
}

pub fn is_cavok(v: Visibility) -> bool
    ensures { result ≡ is_cavok v }
{
    match v.is {
        View::Cavok => true,
        _ => false,
    }
}

// VVVV, by its scale.
fn seen_at(figure: u32) -> Said
    ensures { result ≡ as_visibility (seen_by (metres_reading visibility figure)) }
{
    match scales::metres::visibility_reading(figure) {
        Some(m) => Said::Visibility(Visibility {
            is: View::Metres(m),
        }),
        None => Said::Refused(Refusal::Figure),
    }
}

// //// is not written in a TAF.
fn unseen(forecast: bool) -> Said
    ensures { result ≡ as_visibility (unseen forecast) }
{
    if forecast {
        Said::Refused(Refusal::Figure)
    } else {
        Said::Visibility(Visibility { is: View::Missing })
    }
}

#[tactic(auto, unfolding(elements::specs::Visibility::read_visibility))]
pub fn read_visibility(forecast: bool, g: &[u8]) -> Said
    ensures { result ≡ as_visibility (read_visibility forecast g.now) }
{
    if has_pattern(g, b"CAVOK") {
        return Said::Visibility(Visibility { is: View::Cavok });
    }
    match field(g, 0, 4) {
        Field::Number(n) => seen_at(n),
        Field::Missing => unseen(forecast),
        Field::Mixed | Field::Other => Said::Refused(Refusal::Figure),
    }
}
