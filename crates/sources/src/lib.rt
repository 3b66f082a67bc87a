// The groups of a report by where they were taken: what the walks over each kind's texts share.
#![tactic(auto)]

pub mod kinds;

ghost use Rattle.std.specs.Prelude.{◌≡◌, length};
ghost use Rattle.text.specs.Part.{PartAt};
ghost use Rattle.sources.specs.Trail.{same_spot, start_of, end_of};

use kinds::{Source, Spot};

// Are two spots of a part the same?
pub fn is_same(one: Spot, other: Spot) -> bool
    ensures { result ≡ same_spot one other }
{
    match (one, other) {
        (Spot::Opening, Spot::Opening) => true,
        (Spot::Joined, Spot::Joined) => true,
        (Spot::At { place: p, count: m }, Spot::At { place: q, count: n }) => (p == q) & (m == n),
        _ => false,
    }
}

// The source as a part of the caller's text; the empty part at the text's end where there is none.
pub fn part_of(text: &[u8], source: Option<Source>) -> &[u8]
    ensures { PartAt text.entry result (start_of (length text.now) source) (end_of (length text.now) source) }
{
    match source {
        None => text::part_at(text, text.len(), text.len()),
        Some(Source { start, end }) => text::part_at(text, start, end),
    }
}
