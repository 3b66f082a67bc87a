// What a walk over a METAR or SPECI meets.
use trend_row::kinds::Word;

// The next group: it is taken at a place, where so many stood, and reading stands at `past` behind it; it opens a part; or the walk is over.
#[derive(Clone, Copy)]
pub enum Met {
    Over,
    Takes {
        place: usize,
        count: usize,
        past: usize,
        start: usize,
        end: usize,
    },
    Opens {
        word: Word,
        start: usize,
        end: usize,
    },
}

// An item of a METAR's or SPECI's observation, by the group that says it. Runway ranges, weather, clouds, recent weather and runway states may be several.
#[derive(Clone, Copy)]
pub enum Element {
    Name,
    Correction,
    Station,
    Time,
    Nil,
    Automatic,
    Wind,
    Variation,
    Visibility,
    Runway,
    Weather,
    Clouds,
    Temperatures,
    Pressure,
    Recent,
    State,
    Snoclo,
}

// An item of a part of the trend. Weather and clouds may be several.
#[derive(Clone, Copy)]
pub enum ChangeElement {
    From,
    Until,
    At,
    Wind,
    Visibility,
    Weather,
    Clouds,
}
