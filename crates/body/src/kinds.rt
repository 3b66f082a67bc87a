// What the loop of a reader meets: the next group of the text, by what it comes to in the row of places.
use elements::kinds::Said;
use text::kinds::Refusal;

// A group that is taken: what it says at its place, where `count` groups stood before it, and where it stands in the text.
#[derive(Clone, Copy)]
pub struct Saying {
    pub said: Said,
    pub place: usize,
    pub count: usize,
    pub start: usize,
    pub end: usize,
}

// No group is left; the group from `start` up to `end` halts the reading; the one at `start` is refused; or one is taken.
#[derive(Clone, Copy)]
pub enum Met {
    Over,
    Halt { start: usize, end: usize },
    Refused { refusal: Refusal, start: usize },
    Says(Saying),
}
