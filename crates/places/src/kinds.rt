// Where a group goes in a row of places, and what its turn is.
use text::kinds::Refusal;

// Where a group goes in a row of places.
#[derive(Clone, Copy)]
pub enum Found {
    // To this place, where so many groups stand already.
    Take { place: usize, count: usize },
    // To a place past one that is required and has none.
    Skips,
    // To a place that has as many groups as may stand there.
    Full,
    // Its shape is that of an earlier place, or of one where a group stands that has to stand alone.
    Earlier,
    // No place has its shape.
    Unknown,
}

// A group's turn by the row, before it is read: it goes to a place, where so many groups stand, it stops the reading, or it is refused.
#[derive(Clone, Copy)]
pub enum Turn {
    At { place: usize, count: usize },
    Halt,
    Refused(Refusal),
}
