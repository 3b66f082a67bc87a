// SYNOP and SHIP: the part of a text that an item was read from.
#![tactic(auto)]

pub mod kinds;

ghost use Rattle.std.specs.Prelude.{◌≡◌, eqb};
ghost use Rattle.shapes.specs.Pattern.{has_any};
ghost use Rattle.places.specs.Turn.{turn_at};
ghost use Rattle.synop_row.specs.Row.{row, stop_words};
ghost use Rattle.sources.specs.Trail.{origin_in, source_of};
ghost use Rattle.synop_sources.specs.Items.{part_of, place_of, layers_place, says_layer, is_layer, layer_in};
ghost use Rattle.synop_sources.specs.Trail.{head_at, head_turn, free, section_turn, in_head, turn_in, mark_at, word_move, ship_in, trail_of, met_move, met_of};
ghost use Rattle.synop_sources.specs.Walk.{left, taken_of, Stepped};

use kinds::{Element, Met, Step, Walk};
use places::kinds::Turn;
use places::turn_by;
use shapes::has_pattern;
use sources::is_same;
use sources::kinds::{Source, Spot};
use synop_row::kinds::Needs;
use synop_row::row;
use text::kinds::{Cut, Refusal};

// One group at most stands at a place before section 1.
fn head_at(place: usize) -> Turn
    ensures { result ≡ head_at place }
{
    Turn::At { place, count: 0 }
}

// The place of the group after that of `place`, among those known by position: the name, a ship's call sign, YYGGiw, IIiii or 99LaLaLa and QcLoLoLoLo, NIL or
// iRixhVV, Nddff.
fn head_turn(ship: bool, place: usize, count: usize, g: &[u8]) -> Turn
    ensures { result ≡ head_turn ship place count g.now }
{
    match place {
        10 if count == 0 => head_at(10),
        10 if ship => head_at(11),
        10 => head_at(12),
        11 => head_at(12),
        12 if ship => head_at(14),
        12 => head_at(13),
        13 if has_pattern(g, b"NIL") => head_at(16),
        13 => head_at(17),
        14 => head_at(15),
        15 => head_at(17),
        17 => head_at(18),
        _ => Turn::Refused(Refusal::Shape),
    }
}

// The group's turn by the row of section 1. What is required there decides no place.
fn row_turn(place: usize, count: usize, g: &[u8]) -> Turn
    ensures { result ≡ turn_at (row free) (has_any stop_words) place count g.now }
{
    if 10 <= place {
        return Turn::Refused(Refusal::Shape);
    }
    if row::is_stop_word(g) {
        return Turn::Halt;
    }
    let needs = Needs {
        rain: false,
        weather: false,
        speed: false,
    };
    turn_by(row::find(needs, place, count, g))
}

// In section 1, which begins behind Nddff.
fn section_turn(place: usize, count: usize, g: &[u8]) -> Turn
    ensures { result ≡ section_turn place count g.now }
{
    if place == 18 {
        row_turn(0, 0, g)
    } else {
        row_turn(place, count, g)
    }
}

// In its part: among the groups before section 1, in section 1, or in section 3.
fn turn_in(ship: bool, part: usize, place: usize, count: usize, g: &[u8]) -> Turn
    ensures { result ≡ turn_in ship part place count g.now }
{
    if part == 0 {
        if (10 <= place) & (place != 18) {
            head_turn(ship, place, count, g)
        } else {
            section_turn(place, count, g)
        }
    } else {
        section3::row::decide(place, count, g)
    }
}

// A word, from start up to end: 333 opens section 3, once.
fn meet_word(part: usize, g: &[u8], start: usize, end: usize) -> Met
    ensures { result ≡ met_move start end (word_move part g.now) }
{
    let third = row::is_section3(g);
    if (part == 0) & third {
        Met::Opens { start, end }
    } else {
        Met::Over
    }
}

// The next group of the text.
fn meet(text: &[u8], from: usize, ship: bool, part: usize, place: usize, count: usize) -> Met
    ensures { result ≡ met_of text.now from ship (mark_at part place count) }
{
    let Cut::Group { start, end } = text::next_group(text, from) else {
        return Met::Over;
    };
    let g = text::part(text, start, end);
    let turn = turn_in(ship, part, place, count, g);
    match turn {
        Turn::Halt => meet_word(part, g, start, end),
        Turn::Refused(_) => Met::Over,
        Turn::At {
            place: there,
            count: standing,
        } => Met::Takes {
            place: there,
            count: standing,
            start,
            end,
        },
    }
}

// Is the first group BBXX?
fn is_ship(text: &[u8]) -> bool
    ensures { result ≡ ship_in text.now }
{
    let Cut::Group { start, end } = text::next_group(text, 0) else {
        return false;
    };
    has_pattern(text::part(text, start, end), b"BBXX")
}

// The walk at the text's beginning, where the name is still to come.
#[tactic(auto, unfolding(crate::specs::Trail::trail_of))]
fn begin(text: &[u8]) -> Walk
    ensures { left text.now result ≡ trail_of text.now }
{
    Walk {
        ship: is_ship(text),
        part: 0,
        place: 10,
        count: 0,
        from: 0,
    }
}

// The walk goes on to the next group, if there is one.
fn step(text: &[u8], walk: &mut Walk) -> Option<Step>
    ensures { Stepped text.now walk.old walk.new result }
{
    let met = meet(
        text, walk.from, walk.ship, walk.part, walk.place, walk.count,
    );
    match met {
        Met::Over => None,
        Met::Takes {
            place,
            count,
            start,
            end,
        } => {
            walk.place = place;
            walk.count = count + 1;
            walk.from = end;
            Some(Step {
                part: walk.part,
                spot: Spot::At { place, count },
                source: Source { start, end },
            })
        }
        Met::Opens { start, end } => {
            walk.part = 1;
            walk.place = 0;
            walk.count = 0;
            walk.from = end;
            Some(Step {
                part: 1,
                spot: Spot::Opening,
                source: Source { start, end },
            })
        }
    }
}

// The group that was taken at a spot of a part, in a text that is accepted as a SYNOP or SHIP.
pub fn find(text: &[u8], part: usize, spot: Spot) -> Option<Source>
    ensures { result ≡ source_of (origin_in part spot (trail_of text.now)) }
{
    let mut walk = begin(text);
    while let Some(met) = step(text, &mut walk) {
        if (part == met.part) & is_same(spot, met.spot) {
            return Some(met.source);
        }
    }
    None
}

// Does a group of a part, taken at a place, say a layer?
fn says_layer(part: usize, place: usize, g: &[u8]) -> bool
    ensures { result ≡ says_layer part (eqb place layers_place) g.now }
{
    let none = has_pattern(g, b"8////");
    (part == 1) & (place == 2) & !none
}

// Does the group that the walk came by say a layer?
fn is_layer(text: &[u8], met: Step) -> bool
    ensures { result ≡ is_layer (taken_of text.now met) }
{
    match met.spot {
        Spot::At { place, count: _ } => says_layer(
            met.part,
            place,
            text::part(text, met.source.start, met.source.end),
        ),
        _ => false,
    }
}

// The group that says a layer of section 3, the one with so many before it, in a text that is accepted as a SYNOP or SHIP.
pub fn find_layer(text: &[u8], number: usize) -> Option<Source>
    ensures { result ≡ source_of (layer_in number (trail_of text.now)) }
{
    let mut walk = begin(text);
    let mut more = number;
    while let Some(met) = step(text, &mut walk) {
        if is_layer(text, met) {
            if more == 0 {
                return Some(met.source);
            }
            more -= 1;
        }
    }
    None
}

// The part of the report that an item's group is in: 1 is section 3.
pub fn part_of(element: Element) -> usize
    ensures { result ≡ part_of element }
{
    match element {
        Element::Maximum | Element::Minimum => 1,
        _ => 0,
    }
}

// The place of an item's group in its part.
pub fn place_of(element: Element) -> usize
    ensures { result ≡ place_of element }
{
    match element {
        Element::Name => 10,
        Element::Sign => 11,
        Element::Time => 12,
        Element::Station => 13,
        Element::Latitude => 14,
        Element::Longitude => 15,
        Element::Nil => 16,
        Element::Indicators => 17,
        Element::Wind => 18,
        Element::Speed => 0,
        Element::Air => 1,
        Element::Moisture => 2,
        Element::Pressure => 3,
        Element::Level => 4,
        Element::Tendency => 5,
        Element::Rainfall => 6,
        Element::Weather => 7,
        Element::Clouds => 8,
        Element::Clock => 9,
        Element::Maximum => 0,
        Element::Minimum => 1,
    }
}
