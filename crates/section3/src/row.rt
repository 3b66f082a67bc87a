// The tests of the row: what stops the reading inside section 3, which of the three shapes a group has, and what its turn is.
ghost use Rattle.std.specs.Prelude.{◌≡◌};
ghost use Rattle.places.specs.Turn.{turn_at};
ghost use Rattle.section3.specs.Row.{row, halts};
ghost use Rattle.section3.specs.Step.{shape_of, turn_of};

use places::kinds::Turn;
use shapes::has_pattern;
use synop_row::row::is_stop_word;
use text::kinds::Refusal;

// Which place has the group's shape? 3 where none has.
fn shape_of(g: &[u8]) -> usize
    ensures { result ≡ shape_of g.now }
{
    if has_pattern(g, b"1####") {
        0
    } else if has_pattern(g, b"2####") {
        1
    } else if has_pattern(g, b"8####") {
        2
    } else {
        3
    }
}

// The turn of a group that has the shape of place `shape`, where `count` groups stand at `place`. A second 1sTTT or 2sTTT has no place; 8NChh may stand as
// often as a text has room for, its own reading counts the layers.
fn turn_of(place: usize, count: usize, shape: usize) -> Turn
    ensures { result ≡ turn_of place count shape }
{
    if shape < place {
        Turn::Refused(Refusal::Order)
    } else if place < shape {
        Turn::At {
            place: shape,
            count: 0,
        }
    } else if place == 2 {
        if count < 2048 {
            Turn::At { place, count }
        } else {
            Turn::Refused(Refusal::Limit)
        }
    } else if count == 0 {
        Turn::At { place, count: 0 }
    } else {
        Turn::Refused(Refusal::Order)
    }
}

// The group's turn, where `count` groups stand at `place`. Any group with none of the three shapes stops the reading, and a stop word that has one too.
pub fn decide(place: usize, count: usize, g: &[u8]) -> Turn
    ensures { result ≡ turn_at row halts place count g.now }
{
    if 3 <= place {
        return Turn::Refused(Refusal::Shape);
    }
    if is_stop_word(g) {
        return Turn::Halt;
    }
    let shape = shape_of(g);
    if shape == 3 {
        return Turn::Halt;
    }
    turn_of(place, count, shape)
}
