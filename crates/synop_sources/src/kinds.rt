// What a walk over a SYNOP or SHIP meets, and the items of its record.

use sources::kinds::{Source, Spot};

// The next group: it is taken at a place, where so many stood; it is 333, which opens section 3; or the walk is over.
#[derive(Clone, Copy)]
pub enum Met {
    Over,
    Takes {
        place: usize,
        count: usize,
        start: usize,
        end: usize,
    },
    Opens {
        start: usize,
        end: usize,
    },
}

// Where a walk over a ship's report or a land station's stands: at which place of which part, where so many groups stand, and at which byte.
#[derive(Clone, Copy)]
pub struct Walk {
    pub ship: bool,
    pub part: usize,
    pub place: usize,
    pub count: usize,
    pub from: usize,
}

// A group that the walk came by: where it was taken, and where it is in the text.
#[derive(Clone, Copy)]
pub struct Step {
    pub part: usize,
    pub spot: Spot,
    pub source: Source,
}

// An item of a SYNOP or SHIP, by the group that says it; the layers of section 3 apart, which may be several. Of a ship's position 99LaLaLa says the latitude
// without its sign, and QcLoLoLoLo the rest; of the wind Nddff says all but a speed over 99, which 00fff says.
#[derive(Clone, Copy)]
pub enum Element {
    Name,
    Sign,
    Time,
    Station,
    Latitude,
    Longitude,
    Nil,
    Indicators,
    Wind,
    Speed,
    Air,
    Moisture,
    Pressure,
    Level,
    Tendency,
    Rainfall,
    Weather,
    Clouds,
    Clock,
    Maximum,
    Minimum,
}
