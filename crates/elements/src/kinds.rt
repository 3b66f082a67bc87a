// What a group of METAR, SPECI or TAF says, and what parts of one are read as on the way: the value, or the group's refusal, 5 or 7.
use record::aerodrome::{
    Correction, Cover, Instant, Layer, Period, Qnh, Runway, RunwayState, Temperatures, Times,
    Variation, Visibility, Weather, Wind,
};
use text::kinds::Refusal;

// What one group says, to be put into the record afterwards. The station's letters are taken from the group itself.
#[derive(Clone, Copy)]
pub enum Said {
    Special(bool),
    Corrected,
    Correction(Correction),
    Station,
    Time(Instant),
    Nil,
    Automatic,
    Period(Period),
    Cancelled,
    Wind(Wind),
    Variation(Variation),
    Visibility(Visibility),
    Runway(Runway),
    Weather(Weather),
    Nsw,
    Layer(Layer),
    Cover(Cover),
    Temperatures(Temperatures),
    Qnh(Qnh),
    Recent(Weather),
    Nothing,
    Refused(Refusal),
    Times(Times),
    State(RunwayState),
    Snoclo,
}
