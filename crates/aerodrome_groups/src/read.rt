// What a group says: the station, the time, a runway range, the temperatures and Q. A caller holds the group to its shape first; what has another
// shape is refused as a wrong figure.
ghost use Rattle.std.specs.Prelude.{◌≡◌, ◌++◌, take, replicate};
ghost use Rattle.shapes.specs.Shape.{has_shape, scan_of};
ghost use Rattle.elements.specs.Answers.{as_instant, as_runway, as_temperatures, as_qnh};
ghost use Rattle.aerodrome_groups.specs.Head.{station_of, read_time};
ghost use Rattle.aerodrome_groups.specs.Runway.{runway_shape, side_of, course_of, range_of, read_range, runway_by, read_runway, with_runway};
ghost use Rattle.aerodrome_groups.specs.Temperatures.{temperatures_shape, read_degrees, temperatures_by, read_temperatures, read_qnh};

use elements::kinds::Said;
use figures::kinds::Field;
use figures::{byte_at, field};
use record::aerodrome::{Course, Instant, Qnh, Runway, Runways, Side, Station, Temperatures};
use scales::degrees::degrees_reading;
use scales::kinds::Range;
use scales::metres::runway_reading;
use scales::pressure::pressure_reading;
use shapes::kinds::{Scan, Value};
use shapes::scan::{absent, figures_or, nothing, scanned, word_or};
use text::kinds::Refusal;

// CCCC: four letters, 0 past the group's end.
#[tactic(auto, using(crate::proofs::Readings::four_bytes), unfolding(crate::specs::Head::station_of))]
pub fn station_of(g: &[u8]) -> Station
    ensures { result ≡ station_of g.now }
{
    let letters = [byte_at(g, 0), byte_at(g, 1), byte_at(g, 2), byte_at(g, 3)];
    Station { letters }
}

// YYGGggZ
#[tactic(auto, unfolding(crate::specs::Head::read_time))]
pub fn read_time(g: &[u8]) -> Said
    ensures { result ≡ as_instant (read_time g.now) }
{
    let Field::Number(day) = field(g, 0, 2) else {
        return Said::Refused(Refusal::Figure);
    };
    let Field::Number(hour) = field(g, 2, 2) else {
        return Said::Refused(Refusal::Figure);
    };
    let Field::Number(minute) = field(g, 4, 2) else {
        return Said::Refused(Refusal::Figure);
    };
    if (1 <= day) & (day <= 31) & (hour <= 23) & (minute <= 59) {
        Said::Time(Instant {
            day: Some(day),
            hour: Some(hour),
            minute: Some(minute),
        })
    } else {
        Said::Refused(Refusal::Figure)
    }
}

// ---- runway visual ranges

// "R## L|C|R| / M|P| #### U|D|N|" by code made for it.
fn scan_runway(g: &[u8]) -> Scan
    ensures { result ≡ scan_of runway_shape g.now }
{
    let none = absent(g);
    let number = figures_or(g, 0, 0, b"R##", 1, 2, none);
    let at = number.past;
    let no_side = nothing(3, at);
    let right = word_or(g, at, 2, b"R", no_side);
    let centre = word_or(g, at, 1, b"C", right);
    let side = word_or(g, at, 0, b"L", centre);
    let stroke = word_or(g, side.past, 0, b"/", none);
    let at = stroke.past;
    let exact = nothing(2, at);
    let above = word_or(g, at, 1, b"P", exact);
    let mark = word_or(g, at, 0, b"M", above);
    let range = figures_or(g, mark.past, 0, b"####", 0, 4, none);
    let at = range.past;
    let no_course = nothing(3, at);
    let no_change = word_or(g, at, 2, b"N", no_course);
    let down = word_or(g, at, 1, b"D", no_change);
    let course = word_or(g, at, 0, b"U", down);
    scanned(g, course.past, number, side, stroke, mark, range, course)
}

#[tactic(auto, unfolding(shapes::specs::Shape::has_shape))]
pub fn has_runway(g: &[u8]) -> bool
    ensures { result ≡ has_shape runway_shape g.now }
{
    scan_runway(g).fits
}

fn side_of(which: usize) -> Side
    ensures { result ≡ side_of which }
{
    match which {
        0 => Side::Left,
        1 => Side::Centre,
        2 => Side::Right,
        _ => Side::None,
    }
}

fn course_of(which: usize) -> Course
    ensures { result ≡ course_of which }
{
    match which {
        0 => Course::Up,
        1 => Course::Down,
        2 => Course::NoChange,
        _ => Course::None,
    }
}

// M, P or neither, and the figures.
fn range_of(mark: usize, n: u32) -> Range
    ensures { result ≡ range_of mark n }
{
    match mark {
        0 => Range::Below(n),
        1 => Range::Above(n),
        _ => Range::Exact(n),
    }
}

fn read_range(mark: Value, f: Value) -> Result<Option<u32>, Refusal>
    ensures { result ≡ read_range mark f }
{
    match f.field {
        Field::Number(n) => {
            let metres = runway_reading(range_of(mark.which, n)).ok_or(Refusal::Figure)?;
            Ok(Some(metres))
        }
        Field::Missing if mark.which == 2 => Ok(None),
        Field::Missing | Field::Mixed | Field::Other => Err(Refusal::Figure),
    }
}

fn runway_by(n: Value, s: Value, mark: Value, f: Value, c: Value) -> Result<Runway, Refusal>
    ensures { result ≡ runway_by n s mark f c }
{
    let Field::Number(k) = n.field else {
        return Err(Refusal::Figure);
    };
    if (1 <= k) & (k <= 36) {
        Ok(Runway {
            number: Some(k),
            side: side_of(s.which),
            range: read_range(mark, f)?,
            course: course_of(c.which),
        })
    } else {
        Err(Refusal::Figure)
    }
}

#[tactic(auto, using(crate::proofs::Readings::scanned), unfolding(crate::specs::Runway::read_runway))]
pub fn read_runway(g: &[u8]) -> Said
    ensures { result ≡ as_runway (read_runway g.now) }
{
    let values = scan_runway(g).values;
    match runway_by(values[0], values[1], values[3], values[4], values[5]) {
        Ok(runway) => Said::Runway(runway),
        Err(refusal) => Said::Refused(refusal),
    }
}

// One more runway where k stand; past the fourth there is no room.
pub fn add_runway(k: usize, rs: Runways, x: Runway) -> Runways
    ensures { result ≡ with_runway k rs x }
{
    if k < 4 {
        let mut items = rs.items;
        items[k] = x;
        Runways {
            items,
            count: k + 1,
        }
    } else {
        rs
    }
}

// ---- temperatures

// "M| ## / M| ##" by code made for it.
fn scan_temperatures(g: &[u8]) -> Scan
    ensures { result ≡ scan_of temperatures_shape g.now }
{
    let none = absent(g);
    let plus = nothing(1, 0);
    let air_sign = word_or(g, 0, 0, b"M", plus);
    let air = figures_or(g, air_sign.past, 0, b"##", 0, 2, none);
    let stroke = word_or(g, air.past, 0, b"/", none);
    let plus = nothing(1, stroke.past);
    let dew_sign = word_or(g, stroke.past, 0, b"M", plus);
    let dew = figures_or(g, dew_sign.past, 0, b"##", 0, 2, none);
    scanned(g, dew.past, air_sign, air, stroke, dew_sign, dew, none)
}

#[tactic(auto, unfolding(shapes::specs::Shape::has_shape))]
pub fn has_temperatures(g: &[u8]) -> bool
    ensures { result ≡ has_shape temperatures_shape g.now }
{
    scan_temperatures(g).fits
}

// M is alternative 0.
fn read_degrees(mark: Value, f: Value) -> Result<Option<i32>, Refusal>
    ensures { result ≡ read_degrees mark f }
{
    let minus = mark.which == 0;
    match f.field {
        Field::Number(n) => {
            let tenths = degrees_reading(minus, n).ok_or(Refusal::Figure)?;
            Ok(Some(tenths))
        }
        Field::Missing if !minus => Ok(None),
        Field::Missing | Field::Mixed | Field::Other => Err(Refusal::Figure),
    }
}

fn temperatures_by(m: Value, a: Value, n: Value, b: Value) -> Result<Temperatures, Refusal>
    ensures { result ≡ temperatures_by m a n b }
{
    let air = read_degrees(m, a)?;
    let dew = read_degrees(n, b)?;
    Ok(Temperatures { air, dew })
}

// T/Td
#[tactic(auto, using(crate::proofs::Readings::scanned), unfolding(crate::specs::Temperatures::read_temperatures))]
pub fn read_temperatures(g: &[u8]) -> Said
    ensures { result ≡ as_temperatures (read_temperatures g.now) }
{
    let values = scan_temperatures(g).values;
    match temperatures_by(values[0], values[1], values[3], values[4]) {
        Ok(temperatures) => Said::Temperatures(temperatures),
        Err(refusal) => Said::Refused(refusal),
    }
}

// Q
#[tactic(auto, unfolding(crate::specs::Temperatures::read_qnh))]
pub fn read_qnh(g: &[u8]) -> Said
    ensures { result ≡ as_qnh (read_qnh g.now) }
{
    match field(g, 1, 4) {
        Field::Number(n) => match pressure_reading(n) {
            Some(p) => Said::Qnh(Qnh { is: Some(p) }),
            None => Said::Refused(Refusal::Figure),
        },
        Field::Missing => Said::Qnh(Qnh { is: None }),
        Field::Mixed | Field::Other => Said::Refused(Refusal::Figure),
    }
}
