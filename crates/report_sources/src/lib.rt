// The auditor's second question, of METAR and SPECI here, of TAF in `forecast`, of SYNOP and SHIP in `surface`: the part of a text that an item of its record was
// read from. Each call hands back a part of the caller's text: the group; or the empty part at the text's end, where the item has no group, and of a text that is
// refused or of another kind.
#![tactic(auto)]

pub mod forecast;
pub mod surface;

ghost use Rattle.std.specs.Prelude.{◌≡◌};
ghost use Rattle.sources.specs.declared.kinds.Spot.TheVariants as spot;
ghost use Rattle.metar_sources.specs.Items as observed;
ghost use Rattle.metar_sources.specs.Changes as changed;
ghost use Rattle.report_sources.specs.Source.{observed_at, SourcePart};

use metar_sources::kinds::{ChangeElement, Element};
use report_record::kinds::Kind;
use sources::kinds::{Source, Spot};

// The group that was taken at a spot of a part.
#[tactic(auto, unfolding(crate::specs::Source::observed_at))]
fn find(text: &[u8], part: usize, spot: Spot) -> Option<Source>
    ensures { result ≡ observed_at text.now part spot }
{
    match report::read(text).report.kind {
        Kind::Observed => metar_sources::find(text, part, spot),
        Kind::Missing | Kind::Surface | Kind::Forecast => None,
    }
}

// An item of the observation; of those that may be several, the one with so many before it.
pub fn observed(text: &[u8], element: Element, count: usize) -> &[u8]
    ensures { SourcePart text.entry result (observed_at text.now 0 (spot.At (observed.place_of element) count)) }
{
    let place = metar_sources::place_of(element);
    sources::part_of(text, find(text, 0, Spot::At { place, count }))
}

// An item of a part of the trend, the first being part 1.
pub fn changed(text: &[u8], part: usize, element: ChangeElement, count: usize) -> &[u8]
    ensures { SourcePart text.entry result (observed_at text.now part (spot.At (changed.place_of element) count)) }
{
    let place = metar_sources::change_place_of(element);
    sources::part_of(text, find(text, part, Spot::At { place, count }))
}

// The word that opened a part of the trend: NOSIG, BECMG or TEMPO.
pub fn opened(text: &[u8], part: usize) -> &[u8]
    ensures { SourcePart text.entry result (observed_at text.now part spot.Opening) }
{
    sources::part_of(text, find(text, part, Spot::Opening))
}
