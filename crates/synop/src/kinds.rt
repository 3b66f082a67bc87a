// What the reader of SYNOP and SHIP takes the groups known by position for.

// A group known by its position alone, a ship's call sign apart; instead of iRixhVV a land report may have NIL.
#[derive(Clone, Copy)]
pub enum Post {
    Time,
    Station,
    Latitude,
    Longitude,
    Indicators { land: bool },
    Wind,
}
