// What a group says: one function for each place, each over the group's number fields. A caller holds the group to its shape first; what has
// another shape is refused as a wrong figure.
ghost use Rattle.std.specs.Prelude.{◌≡◌, ◌<◌};
ghost use Rattle.figures.specs.Figures.{field_at};
ghost use Rattle.figures.specs.Signed.{with_sign};
ghost use Rattle.synop_groups.specs.Parts.{part_of, base_part, sight_for, sight_part, height_for, layer_part};
ghost use Rattle.synop_groups.specs.Reads.{wrong, disagrees, unless, read_latitude, position_of, pressure_of, level_is, tendency_is, wind_of, wind_by, air_is, moisture_is, rainfall_of, said_time, said_station, said_latitude, said_longitude, said_indicators, said_wind, said_speed, said_air, said_moisture, said_pressure, said_level, said_tendency, said_rainfall, said_weather, said_clouds, said_clock, said_layer};

use crate::kinds::Said;
use figures::kinds::Field;
use figures::{field, signed};
use record::surface::{
    Air, AtLevel, BaseHeight, Clock, CloudLayer, Clouds, Fall, Indicators, Level, Moist, Moisture,
    Observed, Position, Pressure, PressureChange, Rainfall, Sight, Tendency, Time, Weather, Wind,
};
use record::values::{Direction, Speed};
use text::kinds::Refusal;

#[tactic(auto, unfolding(crate::specs::Parts::part_of))]
fn part_at(g: &[u8], at: usize, width: usize) -> Option<Option<u32>>
    ensures { result ≡ part_of (field_at g.now at width) }
{
    match field(g, at, width) {
        Field::Number(n) => Some(Some(n)),
        Field::Missing => Some(None),
        Field::Mixed | Field::Other => None,
    }
}

fn wrong_figure() -> Said
    ensures { result ≡ wrong }
{
    Said::Refused(Refusal::Figure)
}

fn disagreement() -> Said
    ensures { result ≡ disagrees }
{
    Said::Refused(Refusal::Disagreement)
}

// What is right may still be forbidden.
fn unless_forbidden(forbidden: bool, s: Said) -> Said
    ensures { result ≡ unless forbidden s }
{
    if forbidden { disagreement() } else { s }
}

// YYGGiw
#[tactic(auto, unfolding(crate::specs::Reads::said_time, crate::specs::Reads::time_of))]
pub fn read_time(g: &[u8]) -> Said
    ensures { result ≡ said_time g.now }
{
    let Field::Number(day) = field(g, 0, 2) else {
        return wrong_figure();
    };
    let Field::Number(hour) = field(g, 2, 2) else {
        return wrong_figure();
    };
    let Field::Number(unit) = field(g, 4, 1) else {
        return wrong_figure();
    };
    let is_unit = (unit == 0) | (unit == 1) | (unit == 3) | (unit == 4);
    if (1 <= day) & (day <= 31) & (hour <= 23) & is_unit {
        Said::Time(Time {
            day: Some(day),
            hour: Some(hour),
            unit: Some(unit),
        })
    } else {
        wrong_figure()
    }
}

// IIiii
#[tactic(auto, unfolding(crate::specs::Reads::said_station))]
pub fn read_station(g: &[u8]) -> Said
    ensures { result ≡ said_station g.now }
{
    let Field::Number(n) = field(g, 0, 5) else {
        return wrong_figure();
    };
    Said::Station(n)
}

// Minus or plus n tenths, of at most four figures.
fn with_sign(minus: bool, n: u32) -> i32
    requires { n < 10000 }
    ensures { result ≡ with_sign minus n }
{
    let s = signed::signed_of(minus, n);
    match s {
        Some(t) => t,
        None => 0,
    }
}

// 99LaLaLa: the latitude's magnitude, until the quadrant is read.
#[tactic(auto, unfolding(crate::specs::Reads::said_latitude, crate::specs::Reads::latitude_is))]
pub fn read_latitude(g: &[u8]) -> Said
    ensures { result ≡ said_latitude g.now }
{
    let Field::Number(n) = field(g, 2, 3) else {
        return wrong_figure();
    };
    if n <= 900 {
        Said::Position(Position {
            latitude: Some(with_sign(false, n)),
            longitude: None,
        })
    } else {
        wrong_figure()
    }
}

// The magnitude of the latitude that was read before.
fn magnitude_of(t: Option<i32>) -> u32
    ensures { result ≡ read_latitude t }
{
    match t {
        None => 0,
        Some(t) => signed::magnitude(t),
    }
}

#[tactic(auto, unfolding(crate::specs::Reads::position_of))]
fn position_of(latitude: u32, quadrant: u32, longitude: u32) -> Said
    ensures { result ≡ position_of latitude quadrant longitude }
{
    if 900 < latitude {
        return wrong_figure();
    }
    if 1800 < longitude {
        return wrong_figure();
    }
    let south = (quadrant == 3) | (quadrant == 5);
    let west = (quadrant == 5) | (quadrant == 7);
    if (quadrant == 1) | (quadrant == 3) | (quadrant == 5) | (quadrant == 7) {
        Said::Position(Position {
            latitude: Some(with_sign(south, latitude)),
            longitude: Some(with_sign(west & !(longitude == 1800), longitude)),
        })
    } else {
        wrong_figure()
    }
}

// QcLoLoLoLo, after the latitude.
#[tactic(auto, unfolding(crate::specs::Reads::said_longitude))]
pub fn read_longitude(p: Position, g: &[u8]) -> Said
    ensures { result ≡ said_longitude p g.now }
{
    let Field::Number(quadrant) = field(g, 0, 1) else {
        return wrong_figure();
    };
    let Field::Number(n) = field(g, 1, 4) else {
        return wrong_figure();
    };
    let latitude = p.latitude;
    position_of(magnitude_of(latitude), quadrant, n)
}

// h, by table 1600.
#[tactic(auto, unfolding(crate::specs::Parts::base_part))]
fn base_at(g: &[u8]) -> Option<Option<u32>>
    ensures { result ≡ base_part (field_at g.now 2 1) }
{
    match field(g, 2, 1) {
        Field::Number(n) => scales::metres::base_reading(n).map(Some),
        Field::Missing => Some(None),
        Field::Mixed | Field::Other => None,
    }
}

#[tactic(auto, unfolding(crate::specs::Parts::sight_for))]
fn sight_of(n: u32) -> Option<Sight>
    ensures { result ≡ sight_for n }
{
    if 90 <= n {
        scales::metres::sea_reading(n).map(Sight::Sea)
    } else {
        scales::metres::land_reading(n).map(Sight::Land)
    }
}

// VV, by table 4377.
#[tactic(auto, unfolding(crate::specs::Parts::sight_part))]
fn sight_at(g: &[u8]) -> Option<Sight>
    ensures { result ≡ sight_part (field_at g.now 3 2) }
{
    match field(g, 3, 2) {
        Field::Number(n) => sight_of(n),
        Field::Missing => Some(Sight::Missing),
        Field::Mixed | Field::Other => None,
    }
}

// iR ix h VV
pub fn read_indicators(g: &[u8]) -> Said
    ensures { result ≡ said_indicators g.now }
{
    let Field::Number(rain) = field(g, 0, 1) else {
        return wrong_figure();
    };
    let Field::Number(weather) = field(g, 1, 1) else {
        return wrong_figure();
    };
    let Some(base) = base_at(g) else {
        return wrong_figure();
    };
    let Some(sight) = sight_at(g) else {
        return wrong_figure();
    };
    if (rain <= 4) & (1 <= weather) & (weather <= 7) {
        Said::Indicators(Indicators {
            rain: Some(rain),
            weather: Some(weather),
            base,
            sight,
        })
    } else {
        wrong_figure()
    }
}

// A wind that is calm by its direction or not, where its speed agrees.
fn wind_of(cover: Option<u32>, direction: Direction, calm: bool, speed: u32) -> Said
    ensures { result ≡ wind_of cover direction calm speed }
{
    let still = speed == 0;
    if (calm & still) | (!calm & !still) {
        Said::Wind(Wind {
            cover,
            direction,
            speed: Speed::Is(speed),
        })
    } else {
        disagreement()
    }
}

#[tactic(auto, unfolding(crate::specs::Reads::wind_by))]
fn wind_by(cover: Option<u32>, tens: u32, speed: u32) -> Said
    ensures { result ≡ wind_by cover tens speed }
{
    if tens == 0 {
        return wind_of(cover, Direction::Calm, true, speed);
    }
    if tens == 99 {
        return wind_of(cover, Direction::Variable, false, speed);
    }
    let r = scales::direction::direction_reading(tens);
    match r {
        Some(d) => wind_of(cover, Direction::Degrees(d), false, speed),
        None => wrong_figure(),
    }
}

// N dd ff
#[tactic(auto, unfolding(crate::specs::Reads::said_wind, crate::specs::Parts::part_of))]
pub fn read_wind(g: &[u8]) -> Said
    ensures { result ≡ said_wind g.now }
{
    let Some(cover) = part_at(g, 0, 1) else {
        return wrong_figure();
    };
    let tens = field(g, 1, 2);
    let speed = field(g, 3, 2);
    match tens {
        Field::Number(dd) => {
            let Field::Number(ff) = speed else {
                return wrong_figure();
            };
            wind_by(cover, dd, ff)
        }
        Field::Missing => {
            let Field::Missing = speed else {
                return wrong_figure();
            };
            Said::Wind(Wind {
                cover,
                direction: Direction::Missing,
                speed: Speed::Missing,
            })
        }
        _ => wrong_figure(),
    }
}

// 00fff, where ff was 99 or not.
#[tactic(auto, unfolding(crate::specs::Reads::said_speed, crate::specs::Reads::speed_is))]
pub fn read_speed(due: bool, g: &[u8]) -> Said
    ensures { result ≡ said_speed due g.now }
{
    let Field::Number(n) = field(g, 2, 3) else {
        return wrong_figure();
    };
    if 99 <= n {
        if due { Said::Speed(n) } else { disagreement() }
    } else {
        wrong_figure()
    }
}

#[tactic(auto, unfolding(crate::specs::Reads::air_is))]
fn air_of(n: u32) -> Said
    ensures { result ≡ air_is n }
{
    let r = scales::degrees::signed_reading(n / 1000, n % 1000);
    match r {
        Some(t) => Said::Air(Air {
            temperature: Some(t),
        }),
        None => wrong_figure(),
    }
}

// 1sTTT
#[tactic(auto, unfolding(crate::specs::Reads::said_air))]
pub fn read_air(g: &[u8]) -> Said
    ensures { result ≡ said_air g.now }
{
    let f = field(g, 1, 4);
    match f {
        Field::Number(n) => air_of(n),
        Field::Missing => Said::Air(Air { temperature: None }),
        _ => wrong_figure(),
    }
}

#[tactic(auto, unfolding(crate::specs::Reads::moisture_is))]
fn moisture_of(n: u32) -> Said
    ensures { result ≡ moisture_is n }
{
    let figures = n % 1000;
    if n / 1000 == 9 {
        if figures <= 100 {
            return Said::Moisture(Moisture {
                is: Moist::Humidity(figures),
            });
        }
        return wrong_figure();
    }
    let r = scales::degrees::signed_reading(n / 1000, figures);
    match r {
        Some(t) => Said::Moisture(Moisture {
            is: Moist::DewPoint(t),
        }),
        None => wrong_figure(),
    }
}

// 2sTTT or 29UUU
#[tactic(auto, unfolding(crate::specs::Reads::said_moisture))]
pub fn read_moisture(g: &[u8]) -> Said
    ensures { result ≡ said_moisture g.now }
{
    let f = field(g, 1, 4);
    match f {
        Field::Number(n) => moisture_of(n),
        Field::Missing => Said::Moisture(Moisture { is: Moist::Missing }),
        _ => wrong_figure(),
    }
}

// 0000 to 0999 are 1000.0 to 1099.9 hPa.
fn pressure_of(n: u32) -> u32
    requires { n < 10000 }
    ensures { result ≡ pressure_of n }
{
    if n <= 999 { n + 10000 } else { n }
}

// 3PPPP
pub fn read_pressure(g: &[u8]) -> Said
    ensures { result ≡ said_pressure g.now }
{
    let f = field(g, 1, 4);
    match f {
        Field::Number(n) => Said::Pressure(Pressure {
            station: Some(pressure_of(n)),
        }),
        Field::Missing => Said::Pressure(Pressure { station: None }),
        _ => wrong_figure(),
    }
}

#[tactic(auto, unfolding(crate::specs::Reads::level_is))]
fn level_of(n: u32) -> Said
    requires { n < 10000 }
    ensures { result ≡ level_is n }
{
    if (n <= 999) | (9000 <= n) {
        return Said::Level(Level {
            is: AtLevel::Pressure(pressure_of(n)),
        });
    }
    let a = n / 1000;
    if (a == 1) | (a == 2) | (a == 5) | (a == 7) | (a == 8) {
        Said::Level(Level {
            is: AtLevel::Isobaric {
                level: a,
                height: n % 1000,
            },
        })
    } else {
        wrong_figure()
    }
}

// 4PPPP or 4ahhh
pub fn read_level(g: &[u8]) -> Said
    ensures { result ≡ said_level g.now }
{
    let f = field(g, 1, 4);
    match f {
        Field::Number(n) => level_of(n),
        Field::Missing => Said::Level(Level {
            is: AtLevel::Missing,
        }),
        _ => wrong_figure(),
    }
}

#[tactic(auto, unfolding(crate::specs::Reads::tendency_is))]
fn tendency_of(a: u32, p: u32) -> Said
    requires { p < 1000 }
    ensures { result ≡ tendency_is a p }
{
    if (8 < a) | ((a == 4) & !(p == 0)) {
        return wrong_figure();
    }
    Said::Tendency(Tendency {
        is: Some(PressureChange {
            tendency: a,
            change: with_sign(4 < a, p),
        }),
    })
}

// 5appp
#[tactic(auto, unfolding(crate::specs::Reads::said_tendency))]
pub fn read_tendency(g: &[u8]) -> Said
    ensures { result ≡ said_tendency g.now }
{
    let f = field(g, 1, 4);
    match f {
        Field::Number(n) => tendency_of(n / 1000, n % 1000),
        Field::Missing => Said::Tendency(Tendency { is: None }),
        _ => wrong_figure(),
    }
}

fn rainfall_of(forbidden: bool, n: u32, period: Option<u32>) -> Said
    ensures { result ≡ rainfall_of forbidden n period }
{
    let r = scales::rain::rain_reading(n);
    match r {
        Some(amount) => unless_forbidden(
            forbidden,
            Said::Rainfall(Rainfall {
                is: Some(Fall { amount, period }),
            }),
        ),
        None => wrong_figure(),
    }
}

// 6RRRt
#[tactic(auto, unfolding(crate::specs::Reads::said_rainfall, crate::specs::Parts::part_of))]
pub fn read_rainfall(forbidden: bool, g: &[u8]) -> Said
    ensures { result ≡ said_rainfall forbidden g.now }
{
    let f = field(g, 1, 3);
    match f {
        Field::Number(n) => {
            let Some(period) = part_at(g, 4, 1) else {
                return wrong_figure();
            };
            rainfall_of(forbidden, n, period)
        }
        Field::Missing => {
            let Field::Missing = field(g, 4, 1) else {
                return wrong_figure();
            };
            unless_forbidden(forbidden, Said::Rainfall(Rainfall { is: None }))
        }
        _ => wrong_figure(),
    }
}

// 7wwWW
#[tactic(auto, unfolding(crate::specs::Reads::said_weather, crate::specs::Parts::part_of))]
pub fn read_weather(forbidden: bool, g: &[u8]) -> Said
    ensures { result ≡ said_weather forbidden g.now }
{
    let Some(present) = part_at(g, 1, 2) else {
        return wrong_figure();
    };
    let Some(past) = part_at(g, 3, 1) else {
        return wrong_figure();
    };
    let Some(past2) = part_at(g, 4, 1) else {
        return wrong_figure();
    };
    unless_forbidden(
        forbidden,
        Said::Weather(Weather {
            present,
            past,
            past2,
        }),
    )
}

// 8NCCC
#[tactic(auto, unfolding(crate::specs::Reads::said_clouds, crate::specs::Parts::part_of))]
pub fn read_clouds(g: &[u8]) -> Said
    ensures { result ≡ said_clouds g.now }
{
    let Some(amount) = part_at(g, 1, 1) else {
        return wrong_figure();
    };
    let Some(low) = part_at(g, 2, 1) else {
        return wrong_figure();
    };
    let Some(middle) = part_at(g, 3, 1) else {
        return wrong_figure();
    };
    let Some(high) = part_at(g, 4, 1) else {
        return wrong_figure();
    };
    Said::Clouds(Clouds {
        amount,
        low,
        middle,
        high,
    })
}

// 9GGgg
#[tactic(auto, unfolding(crate::specs::Reads::said_clock, crate::specs::Reads::clock_is))]
pub fn read_clock(g: &[u8]) -> Said
    ensures { result ≡ said_clock g.now }
{
    let Field::Number(hour) = field(g, 1, 2) else {
        return wrong_figure();
    };
    let Field::Number(minute) = field(g, 3, 2) else {
        return wrong_figure();
    };
    if (hour <= 23) & (minute <= 59) {
        Said::Clock(Clock {
            is: Some(Observed { hour, minute }),
        })
    } else {
        wrong_figure()
    }
}

#[tactic(auto, unfolding(crate::specs::Parts::height_for))]
fn height_of(n: u32) -> Option<BaseHeight>
    ensures { result ≡ height_for n }
{
    if 90 <= n {
        scales::layers::bands_reading(n).map(BaseHeight::Bands)
    } else {
        scales::layers::steps_reading(n).map(BaseHeight::Steps)
    }
}

// hh, by table 1677.
#[tactic(auto, unfolding(crate::specs::Parts::layer_part))]
fn height_at(g: &[u8]) -> Option<BaseHeight>
    ensures { result ≡ layer_part (field_at g.now 3 2) }
{
    match field(g, 3, 2) {
        Field::Number(n) => height_of(n),
        Field::Missing => Some(BaseHeight::Missing),
        Field::Mixed | Field::Other => None,
    }
}

// 8NChh of section 3
pub fn read_layer(g: &[u8]) -> Said
    ensures { result ≡ said_layer g.now }
{
    let Some(amount) = part_at(g, 1, 1) else {
        return wrong_figure();
    };
    let Some(cloud) = part_at(g, 2, 1) else {
        return wrong_figure();
    };
    let Some(height) = height_at(g) else {
        return wrong_figure();
    };
    Said::Layer(CloudLayer {
        amount,
        cloud,
        height,
    })
}
