// What scanning a group gives.
use figures::kinds::Field;

// What a group says at one part of its shape: the alternative that stands there, by its number from 0, and its number field; Other where it has none. A shape is
// text, so its alternatives have numbers, which each reader turns into an enum of its own.
#[derive(Clone, Copy)]
pub struct Value {
    pub which: usize,
    pub field: Field,
}

// Whether a group has a shape, and what it says at each of its parts, of which there are at most eight. A flag and no Option: of a group without the shape the
// values are blank ones, and what a place reads of such a group is defined by them.
#[derive(Clone, Copy)]
pub struct Scan {
    pub fits: bool,
    pub values: [Value; 8],
}

// What a group says at one part of its shape, and the position where it goes on after it: past the group's end where the part is not there, so that the parts
// follow one another with no test between them, and one comparison at the end decides.
#[derive(Clone, Copy)]
pub struct Step {
    pub value: Value,
    pub past: usize,
}
