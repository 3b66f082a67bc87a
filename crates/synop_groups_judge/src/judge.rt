// What the writer judges of each group before it writes anything: first its ranges (refusal 11), then its agreement (refusal 7).
ghost use Rattle.std.specs.Prelude.{◌≡◌};
ghost use Rattle.scales.specs.Rounded.{rain_fits};
ghost use Rattle.synop_groups.specs.Judge.{unit_fits, latitude_fits, longitude_fits, sight_fits, speed_fits, wind_fits, wind_agrees};
ghost use Rattle.synop_groups.specs.Judge.{tenths_fit, moist_fits, level_fits, change_fits, change_suits, change_agrees, fall_fits, clock_fits, height_fits, layer_fits};
ghost use Rattle.synop_groups.specs.Judge.{judge_time, judge_station, judge_sign, judge_position, judge_indicators, judge_wind};
ghost use Rattle.synop_groups.specs.Judge.{judge_air, judge_moisture, judge_pressure, judge_level, judge_tendency, judge_rainfall, judge_weather, judge_clouds, judge_clock};

use crate::slots::name_part;
use figures::signed;
use record::surface::{
    Air, AtLevel, BaseHeight, CallSign, Clock, CloudLayer, Clouds, Fall, Indicators, Level, Moist,
    Moisture, Observed, Position, Pressure, PressureChange, Rainfall, Sight, Tendency, Time,
    Weather, Wind,
};
use record::values::{Direction, Speed, is_between, is_missing_or_between};
use scales::kinds::Rain;
use synop_groups::sign::slots_fit;
use text::judge::judge;
use text::kinds::Refusal;

fn unit_fits(n: Option<u32>) -> bool
    ensures { result ≡ unit_fits n }
{
    match n {
        None => false,
        Some(w) => (w == 0) | (w == 1) | (w == 3) | (w == 4),
    }
}

#[tactic(auto, unfolding(synop_groups::specs::Judge::judge_time))]
pub fn judge_time(t: Time) -> Result<(), Refusal>
    ensures { result ≡ judge_time t }
{
    let day = t.day;
    let hour = t.hour;
    let unit = t.unit;
    judge(
        is_between(day, 1, 31) & is_between(hour, 0, 23) & unit_fits(unit),
        true,
    )
}

#[tactic(auto, unfolding(synop_groups::specs::Judge::judge_station))]
pub fn judge_station(n: Option<u32>) -> Result<(), Refusal>
    ensures { result ≡ judge_station n }
{
    judge(is_between(n, 0, 99999), true)
}

#[tactic(auto, unfolding(synop_groups::specs::Judge::judge_sign))]
pub fn judge_sign(s: CallSign) -> Result<(), Refusal>
    ensures { result ≡ judge_sign s }
{
    let letters = s.letters;
    let length = s.length;
    let name = slots_fit(true, name_part(&letters, length));
    let blank = s.is_blank_from(length);
    judge((3 <= length) & (length <= 9) & name & blank, true)
}

fn latitude_fits(t: Option<i32>) -> bool
    ensures { result ≡ latitude_fits t }
{
    match t {
        None => false,
        Some(t) => signed::magnitude(t) <= 900,
    }
}

// The west's last tenth is -179.9: 180.0 is east.
fn longitude_fits(t: Option<i32>) -> bool
    ensures { result ≡ longitude_fits t }
{
    match t {
        None => false,
        Some(t) => (-1799 <= t) & (t <= 1800),
    }
}

#[tactic(auto, unfolding(synop_groups::specs::Judge::judge_position))]
pub fn judge_position(p: Position) -> Result<(), Refusal>
    ensures { result ≡ judge_position p }
{
    let latitude = p.latitude;
    let longitude = p.longitude;
    judge(latitude_fits(latitude) & longitude_fits(longitude), true)
}

fn sight_fits(s: Sight) -> bool
    ensures { result ≡ sight_fits s }
{
    match s {
        Sight::Missing => true,
        Sight::Land(m) => m <= 99999,
        Sight::Sea(m) => m <= 99999,
    }
}

pub fn judge_indicators(i: Indicators) -> Result<(), Refusal>
    ensures { result ≡ judge_indicators i }
{
    let rain = i.rain;
    let weather = i.weather;
    let base = i.base;
    let sight = i.sight;
    judge(
        is_between(rain, 0, 4)
            & is_between(weather, 1, 7)
            & is_missing_or_between(base, 0, 99999)
            & sight_fits(sight),
        true,
    )
}

// No speed of a SYNOP or SHIP is "above" a number.
fn speed_fits(s: Speed) -> bool
    ensures { result ≡ speed_fits s }
{
    match s {
        Speed::Missing => false,
        Speed::Is(s) => s <= 999,
        Speed::Above(_) => false,
    }
}

// Direction and speed are missing together.
fn wind_fits(d: Direction, s: Speed) -> bool
    ensures { result ≡ wind_fits d s }
{
    match d {
        Direction::Missing => s.is_missing(),
        Direction::Calm => speed_fits(s),
        Direction::Variable => speed_fits(s),
        Direction::Degrees(d) => (d <= 359) & speed_fits(s),
    }
}

// A calm, and nothing else, has the speed 0.
fn wind_agrees(d: Direction, s: Speed) -> bool
    ensures { result ≡ wind_agrees d s }
{
    match d {
        Direction::Missing => true,
        Direction::Calm => s.is_still(),
        Direction::Variable => !s.is_still(),
        Direction::Degrees(_) => !s.is_still(),
    }
}

#[tactic(auto, unfolding(synop_groups::specs::Judge::judge_wind))]
pub fn judge_wind(w: Wind) -> Result<(), Refusal>
    ensures { result ≡ judge_wind w }
{
    let cover = w.cover;
    let d = w.direction;
    let s = w.speed;
    judge(
        is_missing_or_between(cover, 0, 9) & wind_fits(d, s),
        wind_agrees(d, s),
    )
}

fn tenths_fit(t: Option<i32>) -> bool
    ensures { result ≡ tenths_fit t }
{
    match t {
        None => true,
        Some(t) => signed::magnitude(t) <= 999,
    }
}

#[tactic(auto, unfolding(synop_groups::specs::Judge::judge_air))]
pub fn judge_air(a: Air) -> Result<(), Refusal>
    ensures { result ≡ judge_air a }
{
    let t = a.temperature;
    judge(tenths_fit(t), true)
}

fn moist_fits(m: Moist) -> bool
    ensures { result ≡ moist_fits m }
{
    match m {
        Moist::Missing => true,
        Moist::DewPoint(t) => signed::magnitude(t) <= 999,
        Moist::Humidity(u) => u <= 100,
    }
}

#[tactic(auto, unfolding(synop_groups::specs::Judge::judge_moisture))]
pub fn judge_moisture(m: Moisture) -> Result<(), Refusal>
    ensures { result ≡ judge_moisture m }
{
    let is = m.is;
    judge(moist_fits(is), true)
}

#[tactic(auto, unfolding(synop_groups::specs::Judge::judge_pressure))]
pub fn judge_pressure(p: Pressure) -> Result<(), Refusal>
    ensures { result ≡ judge_pressure p }
{
    let station = p.station;
    judge(is_missing_or_between(station, 1000, 10999), true)
}

fn level_fits(h: AtLevel) -> bool
    ensures { result ≡ level_fits h }
{
    match h {
        AtLevel::Missing => true,
        AtLevel::Pressure(p) => (9000 <= p) & (p <= 10999),
        AtLevel::Isobaric { level, height } => {
            ((level == 1) | (level == 2) | (level == 5) | (level == 7) | (level == 8))
                & (height <= 999)
        }
    }
}

#[tactic(auto, unfolding(synop_groups::specs::Judge::judge_level))]
pub fn judge_level(l: Level) -> Result<(), Refusal>
    ensures { result ≡ judge_level l }
{
    let is = l.is;
    judge(level_fits(is), true)
}

fn change_fits(c: Option<PressureChange>) -> bool
    ensures { result ≡ change_fits c }
{
    match c {
        None => true,
        Some(PressureChange { tendency, change }) => (tendency <= 8)
            & (signed::magnitude(change) <= 999),
    }
}

// Below 4 a rise, 4 none, above 4 a fall; no change suits each.
fn change_suits(tendency: u32, change: i32) -> bool
    ensures { result ≡ change_suits tendency change }
{
    let fall = signed::is_negative(change);
    let none = signed::magnitude(change) == 0;
    if tendency < 4 {
        return !fall;
    }
    if tendency == 4 { none } else { fall | none }
}

fn change_agrees(c: Option<PressureChange>) -> bool
    ensures { result ≡ change_agrees c }
{
    match c {
        None => true,
        Some(PressureChange { tendency, change }) => change_suits(tendency, change),
    }
}

#[tactic(auto, unfolding(synop_groups::specs::Judge::judge_tendency))]
pub fn judge_tendency(t: Tendency) -> Result<(), Refusal>
    ensures { result ≡ judge_tendency t }
{
    let is = t.is;
    judge(change_fits(is), change_agrees(is))
}

fn amount_fits(r: Rain) -> bool
    ensures { result ≡ rain_fits r }
{
    match r {
        Rain::Trace => true,
        Rain::Tenths(t) => (1 <= t) & (t <= 99999),
    }
}

fn fall_fits(f: Option<Fall>) -> bool
    ensures { result ≡ fall_fits f }
{
    match f {
        None => true,
        Some(Fall { amount, period }) => amount_fits(amount) & is_missing_or_between(period, 0, 9),
    }
}

pub fn judge_rainfall(forbidden: bool, r: Rainfall) -> Result<(), Refusal>
    ensures { result ≡ judge_rainfall forbidden r }
{
    let is = r.is;
    judge(fall_fits(is), !forbidden | is.is_none())
}

#[tactic(auto, unfolding(synop_groups::specs::Judge::judge_weather))]
pub fn judge_weather(forbidden: bool, w: Weather) -> Result<(), Refusal>
    ensures { result ≡ judge_weather forbidden w }
{
    let present = w.present;
    let past = w.past;
    let past2 = w.past2;
    judge(
        is_missing_or_between(present, 0, 99)
            & is_missing_or_between(past, 0, 9)
            & is_missing_or_between(past2, 0, 9),
        !forbidden | w.is_blank(),
    )
}

#[tactic(auto, unfolding(synop_groups::specs::Judge::judge_clouds))]
pub fn judge_clouds(c: Clouds) -> Result<(), Refusal>
    ensures { result ≡ judge_clouds c }
{
    let amount = c.amount;
    let low = c.low;
    let middle = c.middle;
    let high = c.high;
    judge(
        is_missing_or_between(amount, 0, 9)
            & is_missing_or_between(low, 0, 9)
            & is_missing_or_between(middle, 0, 9)
            & is_missing_or_between(high, 0, 9),
        true,
    )
}

fn clock_fits(o: Option<Observed>) -> bool
    ensures { result ≡ clock_fits o }
{
    match o {
        None => true,
        Some(Observed { hour, minute }) => (hour <= 23) & (minute <= 59),
    }
}

#[tactic(auto, unfolding(synop_groups::specs::Judge::judge_clock))]
pub fn judge_clock(c: Clock) -> Result<(), Refusal>
    ensures { result ≡ judge_clock c }
{
    let is = c.is;
    judge(clock_fits(is), true)
}

fn height_fits(h: BaseHeight) -> bool
    ensures { result ≡ height_fits h }
{
    match h {
        BaseHeight::Missing => true,
        BaseHeight::Steps(m) => m <= 99999,
        BaseHeight::Bands(m) => m <= 99999,
    }
}

// A layer of section 3 that says something, each part in its range.
#[tactic(auto, unfolding(synop_groups::specs::Judge::layer_fits))]
pub fn layer_fits(l: CloudLayer) -> bool
    ensures { result ≡ layer_fits l }
{
    let amount = l.amount;
    let cloud = l.cloud;
    let height = l.height;
    let told = !l.is_blank() & is_missing_or_between(amount, 0, 9);
    told & is_missing_or_between(cloud, 0, 9) & height_fits(height)
}
