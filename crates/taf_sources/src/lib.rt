// TAF, in the present edition and in that of 2005: the part of a text that an item was read from.
#![tactic(auto)]

pub mod kinds;

ghost use Rattle.std.specs.Prelude.{◌≡◌, Some};
ghost use Rattle.record.specs.declared.aerodrome.Opening.{Opening};
ghost use Rattle.taf.specs.Read.{after_probable};
ghost use Rattle.sources.specs.Trail.{Joins, origin_in, source_of};
ghost use Rattle.taf_sources.specs.Items as leg;
ghost use Rattle.taf_sources.specs.Changes as change;
ghost use Rattle.taf_sources.specs.Trail.{word_move, trail_of, mark_at, row_of, belongs, met_move, met_of};

use kinds::{ChangeElement, Element, Step};
use places::kinds::Turn;
use record::aerodrome::{Edition, Opening};
use sources::is_same;
use sources::kinds::{Source, Spot};
use taf::group::decide;
use taf::kinds::Opened;
use taf::word::{open_change, part_of};
use taf_row::kinds::Part;
use taf_row::row::go_past;
use taf_row::tests::does_join;
use text::kinds::Cut;

// The row that a group is held to: of the main part, or of the change that `opener` opened.
fn row_of(part: usize, opener: Opening) -> Part
    ensures { result ≡ row_of part opener }
{
    if part == 0 {
        Part::Main
    } else {
        part_of(opener)
    }
}

// Does the group belong to the word before it? TEMPO at once after PROB30 or PROB40 does.
fn does_belong(part: usize, opener: Opening, place: usize, count: usize, g: &[u8]) -> bool
    ensures { result ≡ belongs part opener place count g.now }
{
    let joins = does_join(opener, g);
    !(part == 0) & (((place == 0) & (count == 0)) & joins)
}

// PROB30 or PROB40, and TEMPO.
fn with_tempo(opener: Opening) -> Opening
    ensures { result ≡ after_probable opener }
{
    match opener {
        Opening::None => Opening::None,
        Opening::Becoming => Opening::Becoming,
        Opening::Temporary => Opening::Temporary,
        Opening::Probable(n) => Opening::ProbablyTemporary(n),
        Opening::ProbablyTemporary(n) => Opening::ProbablyTemporary(n),
        Opening::From => Opening::From,
    }
}

// A group that belongs to the word before it, from start up to end.
fn join(opener: Opening, start: usize, end: usize) -> Step
    ensures { Some result ≡ met_move opener start end (Joins (after_probable opener)) }
{
    Step {
        parts: 0,
        spot: Spot::Joined,
        opener: with_tempo(opener),
        place: 0,
        count: 0,
        start,
        end,
    }
}

// A change word, from start up to end, whatever opened the part before it.
#[tactic(auto, unfolding(crate::specs::Trail::word_move))]
fn meet_word(edition: Edition, g: &[u8], start: usize, end: usize) -> Option<Step>
    ensures { (o : Opening) → result ≡ met_move o start end (word_move edition g.now) }
{
    match open_change(edition, g) {
        Ok(opened) => Some(Step {
            parts: 1,
            spot: Spot::Opening,
            opener: opened.opening,
            place: 0,
            count: 0,
            start,
            end,
        }),
        Err(_) => None,
    }
}

// The next group of the text, in the part that `opener` opened, or none where the walk is over.
fn meet(
    edition: Edition,
    text: &[u8],
    from: usize,
    part: usize,
    opener: Opening,
    place: usize,
    count: usize,
) -> Option<Step>
    ensures { result ≡ met_of edition text.now from (mark_at part opener place count) }
{
    let Cut::Group { start, end } = text::next_group(text, from) else {
        return None;
    };
    let g = text::part(text, start, end);
    if does_belong(part, opener, place, count, g) {
        return Some(join(opener, start, end));
    }
    match decide(edition, row_of(part, opener), place, count, g) {
        Turn::Halt => meet_word(edition, g, start, end),
        Turn::Refused(_) => None,
        Turn::At {
            place: there,
            count: standing,
        } => Some(Step {
            parts: 0,
            spot: Spot::At {
                place: there,
                count: standing,
            },
            opener,
            place: go_past(there),
            count: standing + 1,
            start,
            end,
        }),
    }
}

// The group that was taken at a spot of a part, in a text that is accepted as a TAF of that edition.
pub fn find(edition: Edition, text: &[u8], part: usize, spot: Spot) -> Option<Source>
    ensures { result ≡ source_of (origin_in part spot (trail_of edition text.now)) }
{
    let mut here = 0;
    let mut opener = Opening::None;
    let mut place = 0;
    let mut count = 0;
    let mut from = 0;
    // From group to group, not from byte to byte: no `for` over the text goes this way.
    loop {
        let step = meet(edition, text, from, here, opener, place, count)?;
        here += step.parts;
        if (part == here) & is_same(spot, step.spot) {
            return Some(Source {
                start: step.start,
                end: step.end,
            });
        }
        opener = step.opener;
        place = step.place;
        count = step.count;
        from = step.end;
    }
}

// The place of an item's group in the main part's row.
pub fn place_of(element: Element) -> usize
    ensures { result ≡ leg.place_of element }
{
    match element {
        Element::Name => 0,
        Element::Correction => 1,
        Element::Station => 2,
        Element::Time => 3,
        Element::Nil => 4,
        Element::Period => 5,
        Element::Cancelled => 7,
        Element::Wind => 8,
        Element::Visibility => 9,
        Element::Weather => 10,
        Element::Clouds => 11,
    }
}

// The place of an item's group in the row of a change.
pub fn change_place_of(element: ChangeElement) -> usize
    ensures { result ≡ change.place_of element }
{
    match element {
        ChangeElement::Period => 6,
        ChangeElement::Wind => 8,
        ChangeElement::Visibility => 9,
        ChangeElement::Weather => 10,
        ChangeElement::Clouds => 11,
    }
}
