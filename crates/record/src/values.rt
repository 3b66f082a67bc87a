// Values that may be missing: whole numbers and tenths of a degree with their sign are an Option, directions and speeds have more to say.
ghost use Rattle.std.specs.Prelude.{◌≡◌, leb};
ghost use Rattle.record.specs.Missing.{between, present, optional, no_direction, no_speed, is_still};

// "A record's direction is calm, variable, missing or 0-359."
#[derive(Clone, Copy)]
pub enum Direction {
    Missing,
    Calm,
    Variable,
    Degrees(u32),
}

// A wind speed, in the report's unit: a number, or "above" a number.
#[derive(Clone, Copy)]
pub enum Speed {
    Missing,
    Is(u32),
    Above(u32),
}

// A number that has to be there, and lies in a range.
pub fn is_between(number: Option<u32>, low: u32, high: u32) -> bool
    ensures { result ≡ present (between low high) number }
{
    match number {
        Some(n) => (low <= n) & (n <= high),
        None => false,
    }
}

// A number that has to be there, up to the most.
pub fn is_up_to(number: Option<u32>, most: u32) -> bool
    ensures { result ≡ present (λ n. leb n most) number }
{
    match number {
        Some(n) => n <= most,
        None => false,
    }
}

// A number that may be missing, and else lies in a range.
pub fn is_missing_or_between(number: Option<u32>, low: u32, high: u32) -> bool
    ensures { result ≡ optional (between low high) number }
{
    match number {
        Some(_) => is_between(number, low, high),
        None => true,
    }
}

impl Direction {
    pub fn is_missing(self) -> bool
        ensures { result ≡ no_direction self }
    {
        matches!(self, Direction::Missing)
    }
}

impl Speed {
    pub fn is_missing(self) -> bool
        ensures { result ≡ no_speed self }
    {
        matches!(self, Speed::Missing)
    }

    // A speed of zero, which goes with calm.
    pub fn is_still(self) -> bool
        ensures { result ≡ is_still self }
    {
        matches!(self, Speed::Is(0))
    }
}
