// The blank records of a METAR or SPECI and of a TAF.
ghost use Rattle.std.specs.Prelude.{◌≡◌};
ghost use Rattle.record.specs.Body.{blank_wind, blank_weathers, blank_sky, blank_body};
ghost use Rattle.record.specs.Observation.{blank_runways, blank_states, blank_observation};
ghost use Rattle.record.specs.Trend.{blank_trend_change, blank_trend, blank_metar};
ghost use Rattle.record.specs.Taf.{blank_instant, blank_period, blank_leg, blank_change, blank_taf};

use crate::aerodrome::{
    Amount, Body, Change, Changes, Condition, Convective, Correction, Course, Cover, Depth,
    Edition, Hours, Instant, Layer, Leg, Metar, Observation, Opening, Period, Qnh, Runway,
    RunwayState, RunwayStates, Runways, Side, Sky, Station, Taf, Temperatures, Tendency, Times,
    Trend, TrendChange, Unit, Variation, View, Visibility, Weather, Weathers, Wind,
};
use crate::values::{Direction, Speed};

pub fn blank_station() -> Station
    ensures { result ≡ blank_observation.station }
{
    let letters = [0u8; 4];
    Station { letters }
}

pub fn blank_instant() -> Instant
    ensures { result ≡ blank_instant }
{
    Instant {
        day: None,
        hour: None,
        minute: None,
    }
}

fn blank_period() -> Period
    ensures { result ≡ blank_period }
{
    let blank = Instant {
        day: None,
        hour: None,
        minute: None,
    };
    Period {
        from: blank,
        to: blank,
    }
}

fn blank_wind() -> Wind
    ensures { result ≡ blank_wind }
{
    Wind {
        direction: Direction::Missing,
        speed: Speed::Missing,
        gust: Speed::Missing,
        unit: Unit::Missing,
    }
}

fn blank_runways() -> Runways
    ensures { result ≡ blank_runways }
{
    let blank = Runway {
        number: None,
        side: Side::None,
        range: None,
        course: Course::None,
    };
    let items = [blank; 4];
    Runways { items, count: 0 }
}

fn blank_states() -> RunwayStates
    ensures { result ≡ blank_states }
{
    let condition = Condition::Covered {
        deposit: None,
        extent: None,
        depth: Depth::Missing,
        braking: None,
    };
    let blank = RunwayState {
        runway: None,
        condition,
    };
    let items = [blank; 4];
    RunwayStates {
        items,
        count: 0,
        snoclo: false,
    }
}

fn blank_weathers() -> Weathers
    ensures { result ≡ blank_weathers }
{
    let blank = Weather { is: None };
    let items = [blank; 3];
    Weathers { items, count: 0 }
}

fn blank_sky() -> Sky
    ensures { result ≡ blank_sky }
{
    let blank = Layer {
        amount: Amount::None,
        height: None,
        convective: Convective::None,
    };
    let layers = [blank; 4];
    Sky {
        cover: Cover::Layers,
        layers,
        count: 0,
    }
}

fn blank_body() -> Body
    ensures { result ≡ blank_body }
{
    let wind = blank_wind();
    let weathers = blank_weathers();
    let sky = blank_sky();
    Body {
        wind,
        visibility: Visibility { is: View::Missing },
        weathers,
        nsw: false,
        sky,
    }
}

pub fn blank_observation() -> Observation
    ensures { result ≡ blank_observation }
{
    let station = blank_station();
    let time = blank_instant();
    let body = blank_body();
    let runways = blank_runways();
    let recents = blank_weathers();
    let states = blank_states();
    Observation {
        special: false,
        corrected: false,
        station,
        time,
        nil: false,
        automatic: false,
        body,
        variation: Variation { is: None },
        runways,
        temperatures: Temperatures {
            air: None,
            dew: None,
        },
        qnh: Qnh { is: None },
        recents,
        states,
    }
}

pub fn blank_trend_change() -> TrendChange
    ensures { result ≡ blank_trend_change }
{
    let body = blank_body();
    TrendChange {
        tendency: Tendency::None,
        times: Times { is: Hours::None },
        body,
    }
}

pub fn blank_trend() -> Trend
    ensures { result ≡ blank_trend }
{
    let blank = blank_trend_change();
    let items = [blank; 3];
    Trend {
        items,
        count: 0,
        nosig: false,
    }
}

pub fn blank_metar() -> Metar
    ensures { result ≡ blank_metar }
{
    let observation = blank_observation();
    let trend = blank_trend();
    Metar { observation, trend }
}

pub fn blank_leg() -> Leg
    ensures { result ≡ blank_leg }
{
    let station = blank_station();
    let time = blank_instant();
    let period = blank_period();
    let body = blank_body();
    Leg {
        correction: Correction::None,
        station,
        time,
        nil: false,
        period,
        cancelled: false,
        body,
    }
}

fn blank_change() -> Change
    ensures { result ≡ blank_change }
{
    let period = blank_period();
    let body = blank_body();
    Change {
        opening: Opening::None,
        period,
        body,
    }
}

pub fn blank_taf() -> Taf
    ensures { result ≡ blank_taf }
{
    let leg = blank_leg();
    let change = blank_change();
    let items = [change; 16];
    Taf {
        edition: Edition::Present,
        leg,
        changes: Changes { items, count: 0 },
    }
}
