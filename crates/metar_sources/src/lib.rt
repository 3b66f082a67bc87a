// METAR and SPECI: the part of a text that an item was read from.
#![tactic(auto)]

pub mod kinds;

ghost use Rattle.std.specs.Prelude.{◌≡◌};
ghost use Rattle.shapes.specs.Pattern.{has_any};
ghost use Rattle.metar_row.specs.Row.{stop_words};
ghost use Rattle.trend_row.specs.declared.kinds.Word.{Word};
ghost use Rattle.sources.specs.Trail.{origin_in, source_of};
ghost use Rattle.metar_sources.specs.Items as observed;
ghost use Rattle.metar_sources.specs.Changes as changed;
ghost use Rattle.metar_sources.specs.Trail.{word_move, trail_of, mark_at, turn_in, past_in, met_move, met_of};

use kinds::{ChangeElement, Element, Met};
use metar_row::go_past;
use places::kinds::Turn;
use shapes::has_pattern;
use sources::is_same;
use sources::kinds::{Source, Spot};
use text::kinds::Cut;
use trend_row::kinds::Word;
use trend_row::row::is_change;

// The group's turn in its part: the observation, or a part of the trend that `word` opened.
fn turn_in(part: usize, word: Word, place: usize, count: usize, g: &[u8]) -> Turn
    ensures { result ≡ turn_in part word place count g.now }
{
    if part == 0 {
        metar::step::decide(place, count, g)
    } else {
        trend::group::decide(is_change(word), place, count, g)
    }
}

// Where reading stands past a place.
fn past_in(part: usize, place: usize) -> usize
    ensures { (w : Word) → result ≡ past_in part w place }
{
    if part == 0 { go_past(place) } else { place }
}

#[tactic(auto, using(trend::proofs::Turns::stop_is))]
fn is_stop_word(g: &[u8]) -> bool
    ensures { result ≡ has_any stop_words g.now }
{
    let shear = has_pattern(g, b"WS");
    let remarks = has_pattern(g, b"RMK");
    shear | remarks
}

// A word, from start up to end.
#[tactic(auto, unfolding(crate::specs::Trail::word_move))]
fn meet_word(g: &[u8], start: usize, end: usize) -> Met
    ensures { result ≡ met_move start end (word_move g.now) }
{
    if is_stop_word(g) {
        return Met::Over;
    }
    if has_pattern(g, b"NOSIG") {
        return Met::Opens {
            word: Word::Nosig,
            start,
            end,
        };
    }
    if has_pattern(g, b"BECMG") {
        return Met::Opens {
            word: Word::Becoming,
            start,
            end,
        };
    }
    Met::Opens {
        word: Word::Temporary,
        start,
        end,
    }
}

// The next group of the text, in the part that `word` opened.
fn meet(text: &[u8], from: usize, part: usize, word: Word, place: usize, count: usize) -> Met
    ensures { result ≡ met_of text.now from (mark_at part word place count) }
{
    let Cut::Group { start, end } = text::next_group(text, from) else {
        return Met::Over;
    };
    let g = text::part(text, start, end);
    let turn = turn_in(part, word, place, count, g);
    match turn {
        Turn::Halt => meet_word(g, start, end),
        Turn::Refused(_) => Met::Over,
        Turn::At {
            place: there,
            count: standing,
        } => Met::Takes {
            place: there,
            count: standing,
            past: past_in(part, there),
            start,
            end,
        },
    }
}

// The group that was taken at a spot of a part, in a text that is accepted as a METAR or SPECI.
pub fn find(text: &[u8], part: usize, spot: Spot) -> Option<Source>
    ensures { result ≡ source_of (origin_in part spot (trail_of text.now)) }
{
    let mut here = 0;
    let mut opener = Word::Nosig;
    let mut stand = 0;
    let mut stood = 0;
    let mut from = 0;
    loop {
        let met = meet(text, from, here, opener, stand, stood);
        match met {
            Met::Over => return None,
            Met::Takes {
                place,
                count,
                past,
                start,
                end,
            } => {
                if (part == here) & is_same(spot, Spot::At { place, count }) {
                    return Some(Source { start, end });
                }
                stand = past;
                stood = count + 1;
                from = end;
            }
            Met::Opens { word, start, end } => {
                here += 1;
                if (part == here) & is_same(spot, Spot::Opening) {
                    return Some(Source { start, end });
                }
                opener = word;
                stand = 0;
                stood = 0;
                from = end;
            }
        }
    }
}

// The place of an item's group in the observation's row.
pub fn place_of(element: Element) -> usize
    ensures { result ≡ observed.place_of element }
{
    match element {
        Element::Name => 0,
        Element::Correction => 1,
        Element::Station => 2,
        Element::Time => 3,
        Element::Nil => 4,
        Element::Automatic => 5,
        Element::Wind => 6,
        Element::Variation => 7,
        Element::Visibility => 8,
        Element::Runway => 9,
        Element::Weather => 10,
        Element::Clouds => 11,
        Element::Temperatures => 12,
        Element::Pressure => 13,
        Element::Recent => 14,
        Element::State => 15,
        Element::Snoclo => 16,
    }
}

// The place of an item's group in the row of a trend's change.
pub fn change_place_of(element: ChangeElement) -> usize
    ensures { result ≡ changed.place_of element }
{
    match element {
        ChangeElement::From => 1,
        ChangeElement::Until => 2,
        ChangeElement::At => 3,
        ChangeElement::Wind => 4,
        ChangeElement::Visibility => 5,
        ChangeElement::Weather => 6,
        ChangeElement::Clouds => 7,
    }
}
