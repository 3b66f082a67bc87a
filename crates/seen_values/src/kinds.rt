// The values that are read as one reading. What no value is read as stems from nothing.

// In metres, in millimetres of a deposit, or in tenths of hPa or mm: from the least to the greatest, or from the least on where the class is open above.
#[derive(Clone, Copy)]
pub enum Seen {
    Between { least: u32, greatest: u32 },
    From { least: u32 },
    Nothing,
}

// In tenths of a degree; both unused where there is nothing.
#[derive(Clone, Copy)]
pub struct DegreesSeen {
    pub least: Option<i32>,
    pub greatest: Option<i32>,
}

// Of rain: a trace, or tenths of a millimetre.
#[derive(Clone, Copy)]
pub enum RainSeen {
    Trace,
    Tenths(Seen),
}

// On the circle: from the first direction clockwise to the last.
#[derive(Clone, Copy)]
pub struct Arc {
    pub first: u32,
    pub last: u32,
}
