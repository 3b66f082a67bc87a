// SYNOP and SHIP: one struct for each code group. As to missing values and counts see `aerodrome`; figures of code tables (iw, a, iR, ix) are kept as figures, since
// a record may hold any and is refused 11 for one that the table has not got.
use crate::values::{Direction, Speed};
use scales::kinds::Rain;

// A call sign, 3 to 9 letters and figures; the bytes past the length are 0, and a length of 0 is missing.
#[derive(Clone, Copy)]
pub struct CallSign {
    pub letters: [u8; 9],
    pub length: usize,
}

// 99LaLaLa QcLoLoLoLo: tenths of a degree, north and east positive.
#[derive(Clone, Copy)]
pub struct Position {
    pub latitude: Option<i32>,
    pub longitude: Option<i32>,
}

// YYGGiw: day, hour, and the unit of wind speed by its figure.
#[derive(Clone, Copy)]
pub struct Time {
    pub day: Option<u32>,
    pub hour: Option<u32>,
    pub unit: Option<u32>,
}

// A visibility in metres, on the scale of table 4377 that it is written on.
#[derive(Clone, Copy)]
pub enum Sight {
    Missing,
    Land(u32),
    Sea(u32),
}

// iR ix h VV: the figures of iR and ix, the height of the lowest cloud's base and the visibility in metres.
#[derive(Clone, Copy)]
pub struct Indicators {
    pub rain: Option<u32>,
    pub weather: Option<u32>,
    pub base: Option<u32>,
    pub sight: Sight,
}

// N dd ff, with 00fff.
#[derive(Clone, Copy)]
pub struct Wind {
    pub cover: Option<u32>,
    pub direction: Direction,
    pub speed: Speed,
}

// 1sTTT; in section 3 2sTTT too
#[derive(Clone, Copy)]
pub struct Air {
    pub temperature: Option<i32>,
}

// 2sTTT or 29UUU: the dew point, or the humidity in per cent.
#[derive(Clone, Copy)]
pub enum Moist {
    Missing,
    DewPoint(i32),
    Humidity(u32),
}

#[derive(Clone, Copy)]
pub struct Moisture {
    pub is: Moist,
}

// 3PPPP: pressure at the station, tenths of hPa.
#[derive(Clone, Copy)]
pub struct Pressure {
    pub station: Option<u32>,
}

// 4PPPP or 4ahhh: pressure at sea level in tenths of hPa, or the figure of an isobaric surface and its height as three figures.
#[derive(Clone, Copy)]
pub enum AtLevel {
    Missing,
    Pressure(u32),
    Isobaric { level: u32, height: u32 },
}

#[derive(Clone, Copy)]
pub struct Level {
    pub is: AtLevel,
}

// 5appp: the figure of the tendency and the change in tenths of hPa.
#[derive(Clone, Copy)]
pub struct PressureChange {
    pub tendency: u32,
    pub change: i32,
}

#[derive(Clone, Copy)]
pub struct Tendency {
    pub is: Option<PressureChange>,
}

// 6RRRt: the amount, and the figure of its period.
#[derive(Clone, Copy)]
pub struct Fall {
    pub amount: Rain,
    pub period: Option<u32>,
}

#[derive(Clone, Copy)]
pub struct Rainfall {
    pub is: Option<Fall>,
}

// 7wwWW: present weather, and past weather twice.
#[derive(Clone, Copy)]
pub struct Weather {
    pub present: Option<u32>,
    pub past: Option<u32>,
    pub past2: Option<u32>,
}

// 8NCCC: the amount of low or middle cloud, and the low, middle and high clouds.
#[derive(Clone, Copy)]
pub struct Clouds {
    pub amount: Option<u32>,
    pub low: Option<u32>,
    pub middle: Option<u32>,
    pub high: Option<u32>,
}

// 9GGgg: the hour and minute of the observation.
#[derive(Clone, Copy)]
pub struct Observed {
    pub hour: u32,
    pub minute: u32,
}

#[derive(Clone, Copy)]
pub struct Clock {
    pub is: Option<Observed>,
}

// hh of section 3: the height of a layer's base in metres, on the scale of table 1677 that it is written on.
#[derive(Clone, Copy)]
pub enum BaseHeight {
    Missing,
    // by steps, 00 to 89
    Steps(u32),
    // by bands, 90 to 99
    Bands(u32),
}

// 8NChh of section 3: the amount of a layer, the kind of its cloud, and the height of its base.
#[derive(Clone, Copy)]
pub struct CloudLayer {
    pub amount: Option<u32>,
    pub cloud: Option<u32>,
    pub height: BaseHeight,
}

// At most four, from the first slot on.
#[derive(Clone, Copy)]
pub struct CloudLayers {
    pub items: [CloudLayer; 4],
    pub count: usize,
}

// Section 3, 333: the maximum, 1sTTT, the minimum, 2sTTT, and layers, 8NChh.
#[derive(Clone, Copy)]
pub struct Section3 {
    pub maximum: Air,
    pub minimum: Air,
    pub layers: CloudLayers,
}

// What a SYNOP or SHIP says after its place.
#[derive(Clone, Copy)]
pub struct Surface {
    pub indicators: Indicators,
    pub wind: Wind,
    pub air: Air,
    pub moisture: Moisture,
    pub pressure: Pressure,
    pub level: Level,
    pub tendency: Tendency,
    pub rainfall: Rainfall,
    pub weather: Weather,
    pub clouds: Clouds,
    pub clock: Clock,
}

// Where and when: a land station's number, or a ship's call sign and position; the time; and whether the report is NIL.
#[derive(Clone, Copy)]
pub struct Site {
    pub station: Option<u32>,
    pub sign: CallSign,
    pub position: Position,
    pub time: Time,
    pub nil: bool,
}

// A SYNOP, or a SHIP.
#[derive(Clone, Copy)]
pub struct Synop {
    pub ship: bool,
    pub site: Site,
    pub surface: Surface,
    pub section3: Section3,
}
