// How each group is written over a lent buffer, with what parts it from the group before it. Every function answers the position after its text;
// a group with nothing to say is left out. What a buffer has no room for is not written, so that a caller may judge the room afterwards.
ghost use Rattle.std.specs.Prelude.{◌≡◌, cond, ◌∷◌, [], ◌++◌, leb};
ghost use Rattle.figures.specs.Figures.{number_text, field_text};
ghost use Rattle.figures.specs.Signed.{negative};
ghost use Rattle.figures.specs.Put.{Put};
ghost use Rattle.figures.specs.Quote.{bytes};
ghost use Rattle.text.specs.Groups.{written};
ghost use Rattle.scales.specs.Rounded.{rain_figure};
ghost use Rattle.scales.specs.Fields.{field_by};
ghost use Rattle.synop_groups.specs.Shows.{field_of, magnitude_of, signed_value, sign_text};
ghost use Rattle.synop_groups.specs.Shows.{base_field, sight_field, direction_field, speed_field, weather_text, clouds_text};
ghost use Rattle.synop_groups.specs.Shows.{show_time, show_station, show_sign, show_latitude, show_longitude, show_indicators, show_wind, show_speed, show_air, show_moisture, show_pressure};
ghost use Rattle.synop_groups.specs.Shows.{show_level, show_tendency, show_rainfall, show_weather, show_clouds, show_clock, show_minimum, height_field, show_layer};

use figures::kinds::Field;
use figures::put::{put_byte, put_field, put_number, put_text};
use figures::signed;
use record::surface::{
    Air, AtLevel, BaseHeight, CallSign, Clock, CloudLayer, Clouds, Fall, Indicators, Level, Moist,
    Moisture, Observed, Position, Pressure, PressureChange, Rainfall, Sight, Tendency, Time,
    Weather, Wind,
};
use record::values::{Direction, Speed};
use scales::direction::direction_figure;
use scales::kinds::Rain;
use scales::layers::{bands_figure, steps_figure};
use scales::metres::{base_figure, land_figure, sea_figure};
use scales::rain::rain_figure;
use synop_groups_judge::slots::name_part;
use text::write::{open_group, put_if};

fn field_of(n: Option<u32>) -> Field
    ensures { result ≡ field_of n }
{
    match n {
        None => Field::Missing,
        Some(v) => Field::Number(v),
    }
}

// The figure of a scale; a value out of its range has none.
fn field_by(f: Option<u32>) -> Field
    ensures { result ≡ field_by f }
{
    match f {
        Some(n) => Field::Number(n),
        None => Field::Other,
    }
}

// A number that may be missing: as many slashes as figures.
fn put_part(out: &mut [u8], at: usize, width: usize, n: Option<u32>) -> usize
    ensures { Put out.old at (field_text width (field_of n)) result out.new }
{
    put_field(out, at, width, field_of(n))
}

// A whole group: its fixed bytes and a number.
fn put_coded(out: &mut [u8], at: usize, first: &[u8], width: usize, n: u32) -> usize
    ensures { Put out.old at (written at ((first.now ++ number_text width n) ∷ [])) result out.new }
{
    let opened = open_group(out, at);
    let begun = put_text(out, opened, first);
    put_number(out, begun, width, n)
}

// A whole group: its first byte and two numbers.
fn put_two(
    out: &mut [u8],
    at: usize,
    first: u8,
    width: usize,
    n: u32,
    width2: usize,
    n2: u32,
) -> usize
    ensures { Put out.old at (written at ((first ∷ (number_text width n ++ number_text width2 n2)) ∷ [])) result out.new }
{
    let opened = open_group(out, at);
    let begun = put_byte(out, opened, first);
    let told = put_number(out, begun, width, n);
    put_number(out, told, width2, n2)
}

// YYGGiw
pub fn put_time(out: &mut [u8], at: usize, t: Time) -> usize
    ensures { Put out.old at (written at (show_time t ∷ [])) result out.new }
{
    let day = t.day;
    let hour = t.hour;
    let unit = t.unit;
    let opened = open_group(out, at);
    let dated = put_part(out, opened, 2, day);
    let timed = put_part(out, dated, 2, hour);
    put_part(out, timed, 1, unit)
}

// IIiii
pub fn put_station(out: &mut [u8], at: usize, n: Option<u32>) -> usize
    ensures { Put out.old at (written at (show_station n ∷ [])) result out.new }
{
    let opened = open_group(out, at);
    put_part(out, opened, 5, n)
}

// A call sign.
pub fn put_sign(out: &mut [u8], at: usize, s: CallSign) -> usize
    ensures { Put out.old at (written at (show_sign s ∷ [])) result out.new }
{
    let letters = s.letters;
    let length = s.length;
    let opened = open_group(out, at);
    put_text(out, opened, name_part(&letters, length))
}

fn magnitude_of(t: Option<i32>) -> u32
    ensures { result ≡ magnitude_of t }
{
    match t {
        None => 0,
        Some(t) => signed::magnitude(t),
    }
}

fn is_minus(t: Option<i32>) -> bool
    ensures { result ≡ negative (signed_value t) }
{
    match t {
        None => false,
        Some(t) => signed::is_negative(t),
    }
}

// 99LaLaLa
pub fn put_latitude(out: &mut [u8], at: usize, p: Position) -> usize
    ensures { Put out.old at (written at (show_latitude p ∷ [])) result out.new }
{
    let latitude = p.latitude;
    put_coded(out, at, b"99", 3, magnitude_of(latitude))
}

// The figure of table 3333.
fn quadrant(south: bool, west: bool) -> u32
    ensures { result ≡ cond west (cond south 5 7) (cond south 3 1) }
{
    if west {
        if south { 5 } else { 7 }
    } else {
        if south { 3 } else { 1 }
    }
}

// QcLoLoLoLo
pub fn put_longitude(out: &mut [u8], at: usize, p: Position) -> usize
    ensures { Put out.old at (written at (show_longitude p ∷ [])) result out.new }
{
    let latitude = p.latitude;
    let longitude = p.longitude;
    let q = quadrant(is_minus(latitude), is_minus(longitude));
    let opened = open_group(out, at);
    let told = put_number(out, opened, 1, q);
    put_number(out, told, 4, magnitude_of(longitude))
}

fn base_field(base: Option<u32>) -> Field
    ensures { result ≡ base_field base }
{
    match base {
        None => Field::Missing,
        Some(m) => field_by(base_figure(m)),
    }
}

fn sight_field(sight: Sight) -> Field
    ensures { result ≡ sight_field sight }
{
    match sight {
        Sight::Missing => Field::Missing,
        Sight::Land(m) => field_by(land_figure(m)),
        Sight::Sea(m) => field_by(sea_figure(m)),
    }
}

// iR ix h VV
pub fn put_indicators(out: &mut [u8], at: usize, i: Indicators) -> usize
    ensures { Put out.old at (written at (show_indicators i ∷ [])) result out.new }
{
    let rain = i.rain;
    let weather = i.weather;
    let base = i.base;
    let sight = i.sight;
    let opened = open_group(out, at);
    let first = put_part(out, opened, 1, rain);
    let second = put_part(out, first, 1, weather);
    let third = put_field(out, second, 1, base_field(base));
    put_field(out, third, 2, sight_field(sight))
}

fn direction_field(direction: Direction) -> Field
    ensures { result ≡ direction_field direction }
{
    match direction {
        Direction::Missing => Field::Missing,
        Direction::Calm => Field::Number(0),
        Direction::Variable => Field::Number(99),
        Direction::Degrees(d) => field_by(direction_figure(d)),
    }
}

// ff: 99 for what 00fff says.
fn speed_figure(speed: u32) -> u32
    ensures { result ≡ cond (leb 99 speed) 99 speed }
{
    if 99 <= speed { 99 } else { speed }
}

fn speed_field(speed: Speed) -> Field
    ensures { result ≡ speed_field speed }
{
    match speed {
        Speed::Missing => Field::Missing,
        Speed::Is(s) => Field::Number(speed_figure(s)),
        Speed::Above(_) => Field::Missing,
    }
}

// N dd ff
pub fn put_wind(out: &mut [u8], at: usize, w: Wind) -> usize
    ensures { Put out.old at (written at (show_wind w ∷ [])) result out.new }
{
    let cover = w.cover;
    let direction = w.direction;
    let speed = w.speed;
    let opened = open_group(out, at);
    let covered = put_part(out, opened, 1, cover);
    let pointed = put_field(out, covered, 2, direction_field(direction));
    put_field(out, pointed, 2, speed_field(speed))
}

// 00fff, where the speed does not fit ff.
pub fn put_speed(out: &mut [u8], at: usize, w: Wind) -> usize
    ensures { Put out.old at (written at (show_speed w)) result out.new }
{
    let speed = w.speed;
    match speed {
        Speed::Missing => at,
        Speed::Is(s) => {
            if 99 <= s {
                put_coded(out, at, b"00", 3, s)
            } else {
                at
            }
        }
        Speed::Above(_) => at,
    }
}

// The figure of a sign.
fn sign_figure(t: i32) -> u32
    ensures { result ≡ cond (negative t) 1 0 }
{
    if signed::is_negative(t) { 1 } else { 0 }
}

// A whole group: its first byte, the sign's figure and three figures.
fn put_signed(out: &mut [u8], at: usize, first: u8, t: i32) -> usize
    ensures { Put out.old at (written at ((first ∷ sign_text t) ∷ [])) result out.new }
{
    put_two(out, at, first, 1, sign_figure(t), 3, signed::magnitude(t))
}

// 1sTTT
pub fn put_air(out: &mut [u8], at: usize, a: Air) -> usize
    ensures { Put out.old at (written at (show_air a)) result out.new }
{
    let temperature = a.temperature;
    match temperature {
        None => at,
        Some(t) => put_signed(out, at, b'1', t),
    }
}

// 2sTTT or 29UUU
pub fn put_moisture(out: &mut [u8], at: usize, m: Moisture) -> usize
    ensures { Put out.old at (written at (show_moisture m)) result out.new }
{
    let is = m.is;
    match is {
        Moist::Missing => at,
        Moist::DewPoint(t) => put_signed(out, at, b'2', t),
        Moist::Humidity(u) => put_coded(out, at, b"29", 3, u),
    }
}

// 3PPPP: 1000.0 hPa and more without the first figure.
pub fn put_pressure(out: &mut [u8], at: usize, p: Pressure) -> usize
    ensures { Put out.old at (written at (show_pressure p)) result out.new }
{
    let station = p.station;
    match station {
        None => at,
        Some(p) => put_coded(out, at, b"3", 4, p % 10000),
    }
}

// 4PPPP or 4ahhh
pub fn put_level(out: &mut [u8], at: usize, l: Level) -> usize
    ensures { Put out.old at (written at (show_level l)) result out.new }
{
    let is = l.is;
    match is {
        AtLevel::Missing => at,
        AtLevel::Pressure(p) => put_coded(out, at, b"4", 4, p % 10000),
        AtLevel::Isobaric { level, height } => put_two(out, at, b'4', 1, level, 3, height),
    }
}

// 5appp
pub fn put_tendency(out: &mut [u8], at: usize, t: Tendency) -> usize
    ensures { Put out.old at (written at (show_tendency t)) result out.new }
{
    let is = t.is;
    match is {
        None => at,
        Some(PressureChange { tendency, change }) => {
            put_two(out, at, b'5', 1, tendency, 3, signed::magnitude(change))
        }
    }
}

fn put_fall(out: &mut [u8], at: usize, amount: Rain, period: Option<u32>) -> usize
    ensures { Put out.old at (written at ((bytes "6" ++ field_text 3 (field_by (rain_figure amount)) ++ field_text 1 (field_of period)) ∷ [])) result out.new }
{
    let opened = open_group(out, at);
    let begun = put_byte(out, opened, b'6');
    let measured = put_field(out, begun, 3, field_by(rain_figure(amount)));
    put_part(out, measured, 1, period)
}

// 6RRRt: slashes where it is required and nothing is known of it.
pub fn put_rainfall(out: &mut [u8], at: usize, required: bool, r: Rainfall) -> usize
    ensures { Put out.old at (written at (show_rainfall required r)) result out.new }
{
    let is = r.is;
    match is {
        None => put_if(out, at, required, b"6////"),
        Some(Fall { amount, period }) => put_fall(out, at, amount, period),
    }
}

fn put_weather_group(out: &mut [u8], at: usize, w: Weather) -> usize
    ensures { Put out.old at (written at (weather_text w ∷ [])) result out.new }
{
    let present = w.present;
    let past = w.past;
    let past2 = w.past2;
    let opened = open_group(out, at);
    let begun = put_byte(out, opened, b'7');
    let now = put_part(out, begun, 2, present);
    let before = put_part(out, now, 1, past);
    put_part(out, before, 1, past2)
}

// 7wwWW: where it is required, with nothing to say too.
pub fn put_weather(out: &mut [u8], at: usize, required: bool, w: Weather) -> usize
    ensures { Put out.old at (written at (show_weather required w)) result out.new }
{
    if required | !w.is_blank() {
        put_weather_group(out, at, w)
    } else {
        at
    }
}

fn put_clouds_group(out: &mut [u8], at: usize, c: Clouds) -> usize
    ensures { Put out.old at (written at (clouds_text c ∷ [])) result out.new }
{
    let amount = c.amount;
    let low = c.low;
    let middle = c.middle;
    let high = c.high;
    let opened = open_group(out, at);
    let begun = put_byte(out, opened, b'8');
    let counted = put_part(out, begun, 1, amount);
    let below = put_part(out, counted, 1, low);
    let between = put_part(out, below, 1, middle);
    put_part(out, between, 1, high)
}

// 8NCCC
pub fn put_clouds(out: &mut [u8], at: usize, c: Clouds) -> usize
    ensures { Put out.old at (written at (show_clouds c)) result out.new }
{
    if c.is_blank() {
        at
    } else {
        put_clouds_group(out, at, c)
    }
}

// 9GGgg
pub fn put_clock(out: &mut [u8], at: usize, c: Clock) -> usize
    ensures { Put out.old at (written at (show_clock c)) result out.new }
{
    let is = c.is;
    match is {
        None => at,
        Some(Observed { hour, minute }) => put_two(out, at, b'9', 2, hour, 2, minute),
    }
}

// ---- section 3

// 2sTTT
pub fn put_minimum(out: &mut [u8], at: usize, a: Air) -> usize
    ensures { Put out.old at (written at (show_minimum a)) result out.new }
{
    let temperature = a.temperature;
    match temperature {
        None => at,
        Some(t) => put_signed(out, at, b'2', t),
    }
}

fn height_field(height: BaseHeight) -> Field
    ensures { result ≡ height_field height }
{
    match height {
        BaseHeight::Missing => Field::Missing,
        BaseHeight::Steps(m) => field_by(steps_figure(m)),
        BaseHeight::Bands(m) => field_by(bands_figure(m)),
    }
}

// 8NChh
pub fn put_layer(out: &mut [u8], at: usize, l: CloudLayer) -> usize
    ensures { Put out.old at (written at (show_layer l ∷ [])) result out.new }
{
    let amount = l.amount;
    let cloud = l.cloud;
    let height = l.height;
    let opened = open_group(out, at);
    let begun = put_byte(out, opened, b'8');
    let covered = put_part(out, begun, 1, amount);
    let named = put_part(out, covered, 1, cloud);
    put_field(out, named, 2, height_field(height))
}
