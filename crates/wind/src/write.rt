// How a wind, its variation and a visibility are written over a lent buffer, with what parts the group from the one before it. Every function
// answers the position after its text. What a buffer has no room for is not written, so that a caller may judge the room afterwards.
ghost use Rattle.std.specs.Prelude.{◌≡◌, cond, ◌∷◌, [], ◌++◌, leb};
ghost use Rattle.figures.specs.declared.kinds.Field.TheVariants.{Number};
ghost use Rattle.figures.specs.Figures.{figures};
ghost use Rattle.figures.specs.Put.{Put};
ghost use Rattle.figures.specs.Quote.{bytes};
ghost use Rattle.text.specs.Groups.{written};
ghost use Rattle.scales.specs.Scale.{figure_of};
ghost use Rattle.scales.specs.Metres.{visibility};
ghost use Rattle.scales.specs.Rounded.{ddd_figure};
ghost use Rattle.elements.specs.Wind.{numbered, direction_value, speed_value, gust_value, unit_value, show_wind, show_variation};
ghost use Rattle.elements.specs.Visibility.{show_visibility};

use crate::directions::degrees_text;
use figures::kinds::Field;
use figures::put::{put_byte, put_number, put_text};
use record::aerodrome::{Extremes, Unit, Variation, View, Visibility, Wind};
use record::values::{Direction, Speed};
use scales::metres::visibility_figure;
use shapes::kinds::Value;
use shapes::print::put_shape;
use text::write::open_group;
use wind_values::speeds::class_speed;

// ---- wind: at each part of its shape the number of the alternative, and its number field

fn direction_value(d: Direction) -> Value
    ensures { result ≡ direction_value d }
{
    match d {
        Direction::Missing => Value {
            which: 0,
            field: Field::Missing,
        },
        Direction::Calm => Value {
            which: 0,
            field: Field::Number(0),
        },
        Direction::Variable => Value {
            which: 1,
            field: Field::Other,
        },
        Direction::Degrees(degrees) => Value {
            which: 0,
            field: Field::Number(degrees_text(degrees)),
        },
    }
}

// Three figures from 100 on, two below: the alternative of three figures and that of two.
fn number_value(three: usize, two: usize, n: u32) -> Value
    ensures { result ≡ numbered (cond (leb 100 n) three two) (Number n) }
{
    Value {
        which: if 100 <= n { three } else { two },
        field: Field::Number(n),
    }
}

fn speed_value(s: Speed) -> Value
    ensures { result ≡ speed_value s }
{
    match s {
        Speed::Missing => Value {
            which: 1,
            field: Field::Missing,
        },
        Speed::Is(n) => number_value(0, 1, n),
        Speed::Above(n) => number_value(2, 3, n),
    }
}

// Alternative number 4 is nothing.
fn gust_value(s: Speed) -> Value
    ensures { result ≡ gust_value s }
{
    match s {
        Speed::Missing => Value {
            which: 4,
            field: Field::Other,
        },
        Speed::Is(n) => number_value(0, 1, n),
        Speed::Above(n) => number_value(2, 3, n),
    }
}

fn unit_value(u: Unit) -> Value
    ensures { result ≡ unit_value u }
{
    let which = match u {
        Unit::Missing => 3,
        Unit::Knots => 0,
        Unit::MetresPerSecond => 1,
        Unit::KilometresPerHour => 2,
    };
    Value {
        which,
        field: Field::Other,
    }
}

const WIND_SHAPE: [u8; 55] = *b"###|VRB ###|##|P###|P## G###|G##|GP###|GP##| KT|MPS|KMH";

// dddffGff and unit
pub fn put_wind(out: &mut [u8], at: usize, w: Wind) -> usize
    ensures { Put out.old at (written at (show_wind w ∷ [])) result out.new }
{
    let unit = w.unit;
    let mut values = [unit_value(unit); 8];
    values[0] = direction_value(w.direction);
    values[1] = speed_value(class_speed(unit, w.speed));
    values[2] = gust_value(class_speed(unit, w.gust));
    let opened = open_group(out, at);
    put_shape(out, opened, &WIND_SHAPE, values)
}

// ---- variation

// dddVddd
fn put_extremes(out: &mut [u8], at: usize, from: u32, to: u32) -> usize
    ensures { Put out.old at (written at ((figures 3 (ddd_figure from) ++ bytes "V" ++ figures 3 (ddd_figure to)) ∷ [])) result out.new }
{
    let opened = open_group(out, at);
    let first = put_number(out, opened, 3, degrees_text(from));
    let second = put_byte(out, first, b'V');
    put_number(out, second, 3, degrees_text(to))
}

// Nothing where there is none.
#[tactic(auto, unfolding(elements::specs::Wind::show_variation))]
pub fn put_variation(out: &mut [u8], at: usize, v: Variation) -> usize
    ensures { Put out.old at (written at (show_variation v)) result out.new }
{
    match v.is {
        None => at,
        Some(Extremes { from, to }) => put_extremes(out, at, from, to),
    }
}

// ---- visibility

// VVVV: every visibility from 10,000 m on is 9999.
fn view_figure(metres: u32) -> u32
    ensures { result ≡ figure_of visibility metres }
{
    visibility_figure(metres).unwrap_or(9999)
}

pub fn put_visibility(out: &mut [u8], at: usize, v: Visibility) -> usize
    ensures { Put out.old at (written at (show_visibility v ∷ [])) result out.new }
{
    let opened = open_group(out, at);
    match v.is {
        View::Missing => put_text(out, opened, b"////"),
        View::Cavok => put_text(out, opened, b"CAVOK"),
        View::Metres(m) => put_number(out, opened, 4, view_figure(m)),
    }
}
