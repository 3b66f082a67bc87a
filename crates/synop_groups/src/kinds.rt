// What a group of a SYNOP or SHIP says.
use record::surface::{
    Air, Clock, CloudLayer, Clouds, Indicators, Level, Moisture, Position, Pressure, Rainfall,
    Tendency, Time, Weather, Wind,
};
use text::kinds::Refusal;

// A group's meaning, or its refusal, 5 or 7.
#[derive(Clone, Copy)]
pub enum Said {
    Refused(Refusal),
    Time(Time),
    Station(u32),
    Position(Position),
    Indicators(Indicators),
    Wind(Wind),
    // 00fff
    Speed(u32),
    Air(Air),
    Moisture(Moisture),
    Pressure(Pressure),
    Level(Level),
    Tendency(Tendency),
    Rainfall(Rainfall),
    Weather(Weather),
    Clouds(Clouds),
    Clock(Clock),
    // 8NChh of section 3
    Layer(CloudLayer),
}
