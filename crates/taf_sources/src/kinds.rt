// What a walk over a TAF meets, and the items of its parts.
use record::aerodrome::Opening;
use sources::kinds::Spot;

// A group that was taken: so many parts further on (1 where it opens one), at which spot there, and where it stands in the text. Then what opened that part,
// and at which place of its row reading stands behind the group, where so many stand.
#[derive(Clone, Copy)]
pub struct Step {
    pub parts: usize,
    pub spot: Spot,
    pub opener: Opening,
    pub place: usize,
    pub count: usize,
    pub start: usize,
    pub end: usize,
}

// An item of a TAF's main part, by the group that says it. Weather and clouds may be several.
#[derive(Clone, Copy)]
pub enum Element {
    Name,
    Correction,
    Station,
    Time,
    Nil,
    Period,
    Cancelled,
    Wind,
    Visibility,
    Weather,
    Clouds,
}

// An item of a change group, behind its word. Weather and clouds may be several; under FM the word says when it begins, and there is no period.
#[derive(Clone, Copy)]
pub enum ChangeElement {
    Period,
    Wind,
    Visibility,
    Weather,
    Clouds,
}
