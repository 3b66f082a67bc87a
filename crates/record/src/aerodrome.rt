// METAR, SPECI and TAF: one struct for each place of the report. What has one case beside the missing one is an Option; an enum with more has its missing case
// among them, as the paper lists it. A count stands beside its slots, since memory is fixed and a record can have a count past its slots, or a slot past its
// count that is not blank: such a record is refused 11 (`judge_sky`, `judge_runways` and the like).
use crate::values::{Direction, Speed};

#[derive(Clone, Copy)]
pub enum Unit {
    Missing,
    Knots,
    MetresPerSecond,
    KilometresPerHour,
}

// dddffGff and unit
#[derive(Clone, Copy)]
pub struct Wind {
    pub direction: Direction,
    pub speed: Speed,
    pub gust: Speed,
    pub unit: Unit,
}

// dddVddd, in degrees
#[derive(Clone, Copy)]
pub struct Extremes {
    pub from: u32,
    pub to: u32,
}

#[derive(Clone, Copy)]
pub struct Variation {
    pub is: Option<Extremes>,
}

// VVVV or CAVOK
#[derive(Clone, Copy)]
pub enum View {
    Missing,
    Cavok,
    Metres(u32),
}

#[derive(Clone, Copy)]
pub struct Visibility {
    pub is: View,
}

#[derive(Clone, Copy)]
pub enum Side {
    None,
    Left,
    Centre,
    Right,
}

// How a runway's visual range has changed.
#[derive(Clone, Copy)]
pub enum Course {
    None,
    Up,
    Down,
    NoChange,
}

// A runway by its number and side, its visual range in metres and the range's course.
#[derive(Clone, Copy)]
pub struct Runway {
    pub number: Option<u32>,
    pub side: Side,
    pub range: Option<u32>,
    pub course: Course,
}

// Up to four, the first `count`.
#[derive(Clone, Copy)]
pub struct Runways {
    pub items: [Runway; 4],
    pub count: usize,
}

// How deep a runway's deposit is: in millimetres, or not told of a runway that is closed (99).
#[derive(Clone, Copy)]
pub enum Depth {
    Missing,
    Closed,
    Millimetres(u32),
}

// What a runway is like: cleared (CLRD//), or its deposit, extent, depth and braking, the figures of tables 0919, 0519 and 0366, and of 1079 in
// millimetres.
#[derive(Clone, Copy)]
pub enum Condition {
    Cleared,
    Covered {
        deposit: Option<u32>,
        extent: Option<u32>,
        depth: Depth,
        braking: Option<u32>,
    },
}

// The state of a runway: 01-36, 51-86 the right-hand one, 88 all, 99 repeated from the last.
#[derive(Clone, Copy)]
pub struct RunwayState {
    pub runway: Option<u32>,
    pub condition: Condition,
}

// The aerodrome closed by snow (SNOCLO), or up to four states, the first `count`.
#[derive(Clone, Copy)]
pub struct RunwayStates {
    pub items: [RunwayState; 4],
    pub count: usize,
    pub snoclo: bool,
}

#[derive(Clone, Copy)]
pub enum Intensity {
    None,
    Light,
    Heavy,
    Vicinity,
}

// Two letters of table 4678, or none.
#[derive(Clone, Copy)]
pub struct Code {
    pub first: u8,
    pub second: u8,
}

#[derive(Clone, Copy)]
pub struct Phenomena {
    pub intensity: Intensity,
    pub descriptor: Option<Code>,
    pub first: Option<Code>,
    pub second: Option<Code>,
    pub third: Option<Code>,
}

#[derive(Clone, Copy)]
pub struct Weather {
    pub is: Option<Phenomena>,
}

// Up to three, the first `count`.
#[derive(Clone, Copy)]
pub struct Weathers {
    pub items: [Weather; 3],
    pub count: usize,
}

#[derive(Clone, Copy)]
pub enum Amount {
    None,
    Few,
    Scattered,
    Broken,
    Overcast,
}

#[derive(Clone, Copy)]
pub enum Convective {
    None,
    Cumulonimbus,
    ToweringCumulus,
}

// A sky layer, its height in metres.
#[derive(Clone, Copy)]
pub struct Layer {
    pub amount: Amount,
    pub height: Option<u32>,
    pub convective: Convective,
}

// What the clouds are given as: layers, SKC, NSC, NCD, or the vertical visibility in metres.
#[derive(Clone, Copy)]
pub enum Cover {
    Layers,
    Clear,
    NoneSignificant,
    NoneDetected,
    Vertical(Option<u32>),
}

// Four sky layers with a count.
#[derive(Clone, Copy)]
pub struct Sky {
    pub cover: Cover,
    pub layers: [Layer; 4],
    pub count: usize,
}

// T/Td, in tenths of a degree
#[derive(Clone, Copy)]
pub struct Temperatures {
    pub air: Option<i32>,
    pub dew: Option<i32>,
}

// Q, in tenths of hPa
#[derive(Clone, Copy)]
pub struct Qnh {
    pub is: Option<u32>,
}

// CCCC, four letters; all 0 where it is missing.
#[derive(Clone, Copy)]
pub struct Station {
    pub letters: [u8; 4],
}

// YYGGggZ
#[derive(Clone, Copy)]
pub struct Instant {
    pub day: Option<u32>,
    pub hour: Option<u32>,
    pub minute: Option<u32>,
}

// What an observation and each part of a forecast say alike: wind, visibility or CAVOK, weather, clouds.
#[derive(Clone, Copy)]
pub struct Body {
    pub wind: Wind,
    pub visibility: Visibility,
    pub weathers: Weathers,
    // NSW, the sole weather, in the changes of a TAF and of a trend alone
    pub nsw: bool,
    pub sky: Sky,
}

// What a METAR or SPECI observes, its head included.
#[derive(Clone, Copy)]
pub struct Observation {
    pub special: bool,
    pub corrected: bool,
    pub station: Station,
    pub time: Instant,
    pub nil: bool,
    pub automatic: bool,
    pub body: Body,
    pub variation: Variation,
    pub runways: Runways,
    pub temperatures: Temperatures,
    pub qnh: Qnh,
    pub recents: Weathers,
    pub states: RunwayStates,
}

// A time of the day, GGgg.
#[derive(Clone, Copy)]
pub struct Moment {
    pub hour: u32,
    pub minute: u32,
}

// The times of a trend's change: FM, TL, AT, or FM and TL.
#[derive(Clone, Copy)]
pub enum Hours {
    None,
    From(Moment),
    Until(Moment),
    Between { from: Moment, until: Moment },
    At(Moment),
}

#[derive(Clone, Copy)]
pub struct Times {
    pub is: Hours,
}

// What opens a trend's change: BECMG or TEMPO.
#[derive(Clone, Copy)]
pub enum Tendency {
    None,
    Becoming,
    Temporary,
}

// One change of a trend.
#[derive(Clone, Copy)]
pub struct TrendChange {
    pub tendency: Tendency,
    pub times: Times,
    pub body: Body,
}

// The trend of the next two hours: NOSIG, or up to three changes, the first `count`.
#[derive(Clone, Copy)]
pub struct Trend {
    pub items: [TrendChange; 3],
    pub count: usize,
    pub nosig: bool,
}

// A METAR, or a SPECI.
#[derive(Clone, Copy)]
pub struct Metar {
    pub observation: Observation,
    pub trend: Trend,
}

// AMD or COR.
#[derive(Clone, Copy)]
pub enum Correction {
    None,
    Amended,
    Corrected,
}

// A period without minutes, YYGG/YYGG; under FM the beginning alone, with its minute. In the 2005 edition the end has no day and may be 51 to 74, as
// written, and a change's beginning has no day either.
#[derive(Clone, Copy)]
pub struct Period {
    pub from: Instant,
    pub to: Instant,
}

// The main part of a TAF, or a change group's: the head is blank in a change group.
#[derive(Clone, Copy)]
pub struct Leg {
    pub correction: Correction,
    pub station: Station,
    pub time: Instant,
    pub nil: bool,
    pub period: Period,
    pub cancelled: bool,
    pub body: Body,
}

// What opens a change group: BECMG, TEMPO, PROB30 or PROB40, the same with TEMPO, FM.
#[derive(Clone, Copy)]
pub enum Opening {
    None,
    Becoming,
    Temporary,
    Probable(u32),
    ProbablyTemporary(u32),
    From,
}

#[derive(Clone, Copy)]
pub struct Change {
    pub opening: Opening,
    pub period: Period,
    pub body: Body,
}

// Up to sixteen, the first `count`.
#[derive(Clone, Copy)]
pub struct Changes {
    pub items: [Change; 16],
    pub count: usize,
}

// The edition of the code form that a TAF is written in: the present one, or that of 2005, which held until November 2008.
#[derive(Clone, Copy, PartialEq, Eq)]
pub enum Edition {
    Present,
    Of2005,
}

#[derive(Clone, Copy)]
pub struct Taf {
    pub edition: Edition,
    pub leg: Leg,
    pub changes: Changes,
}
