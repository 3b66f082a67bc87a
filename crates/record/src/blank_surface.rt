// The blank record of a SYNOP or SHIP.
ghost use Rattle.std.specs.Prelude.{◌≡◌};
ghost use Rattle.record.specs.Blank.{blank_site, blank_surface, blank_section3, blank_synop};

use crate::surface::{
    Air, AtLevel, BaseHeight, CallSign, Clock, CloudLayer, CloudLayers, Clouds, Indicators, Level,
    Moist, Moisture, Position, Pressure, Rainfall, Section3, Sight, Site, Surface, Synop, Tendency,
    Time, Weather, Wind,
};
use crate::values::{Direction, Speed};

pub fn blank_site() -> Site
    ensures { result ≡ blank_site }
{
    let station = None;
    let letters = [0u8; 9];
    Site {
        station,
        sign: CallSign { letters, length: 0 },
        position: Position {
            latitude: None,
            longitude: None,
        },
        time: Time {
            day: None,
            hour: None,
            unit: None,
        },
        nil: false,
    }
}

fn blank_indicators() -> Indicators
    ensures { result ≡ blank_surface.indicators }
{
    Indicators {
        rain: None,
        weather: None,
        base: None,
        sight: Sight::Missing,
    }
}

fn blank_clouds() -> Clouds
    ensures { result ≡ blank_surface.clouds }
{
    Clouds {
        amount: None,
        low: None,
        middle: None,
        high: None,
    }
}

pub fn blank_surface() -> Surface
    ensures { result ≡ blank_surface }
{
    let indicators = blank_indicators();
    let clouds = blank_clouds();
    Surface {
        indicators,
        wind: Wind {
            cover: None,
            direction: Direction::Missing,
            speed: Speed::Missing,
        },
        air: Air { temperature: None },
        moisture: Moisture { is: Moist::Missing },
        pressure: Pressure { station: None },
        level: Level {
            is: AtLevel::Missing,
        },
        tendency: Tendency { is: None },
        rainfall: Rainfall { is: None },
        weather: Weather {
            present: None,
            past: None,
            past2: None,
        },
        clouds,
        clock: Clock { is: None },
    }
}

pub fn blank_section3() -> Section3
    ensures { result ≡ blank_section3 }
{
    let blank = CloudLayer {
        amount: None,
        cloud: None,
        height: BaseHeight::Missing,
    };
    let items = [blank; 4];
    Section3 {
        maximum: Air { temperature: None },
        minimum: Air { temperature: None },
        layers: CloudLayers { items, count: 0 },
    }
}

pub fn blank_synop() -> Synop
    ensures { result ≡ blank_synop }
{
    let site = blank_site();
    let surface = blank_surface();
    let section3 = blank_section3();
    Synop {
        ship: false,
        site,
        surface,
        section3,
    }
}
