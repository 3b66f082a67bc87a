// The answers of the cutting functions, document 01's refusals by name, and what every reader and writer answers.

// What stands at or after a position of a text. An enum of its own: neither case is a failure, and both have a place in the text.
#[derive(Clone, Copy)]
pub enum Cut {
    // A group, from start up to end.
    Group { start: usize, end: usize },
    // No group is left: the first "=", or the end of the text, is at `at`.
    End { at: usize },
}

// Refusals 1 and 2, judged over the whole text. An enum of its own and no Result: one of the two refusals has a place, and the laws on sound texts name the case.
#[derive(Clone, Copy)]
pub enum Bytes {
    Sound,
    Length,
    Byte(usize),
}

// The refusal numbers of documents 01 and 02, by what they say; `refusal_number` gives the number.
#[derive(Clone, Copy)]
pub enum Refusal {
    Length,
    Byte,
    Kind,
    Shape,
    Figure,
    Order,
    Disagreement,
    Absence,
    Limit,
    Room,
    Value,
    Times,
}

// What a reader answers of a text that it refuses; of one that it accepts it answers where the unread rest begins.
#[derive(Clone, Copy)]
pub struct Refused {
    pub refusal: Refusal,
    pub place: usize,
}
