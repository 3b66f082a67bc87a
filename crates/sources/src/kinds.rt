// Where a group of a report was taken, and the part of the text that an item was read from.

// Within its part: the word that opened the part, a word that belongs to it (TEMPO after PROB30), or a place of the part's row, where so many groups
// stood already.
#[derive(Clone, Copy)]
pub enum Spot {
    Opening,
    Joined,
    At { place: usize, count: usize },
}

// A group of a text, from start up to end; or there is none.
#[derive(Clone, Copy)]
pub struct Source {
    pub start: usize,
    pub end: usize,
}
