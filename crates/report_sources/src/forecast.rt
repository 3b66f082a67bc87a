// The same of TAF, in the edition that the caller chooses: the part of a text that an item of its main part, or of a change group, was read from.
ghost use Rattle.std.specs.Prelude.{◌≡◌};
ghost use Rattle.sources.specs.declared.kinds.Spot.TheVariants as spot;
ghost use Rattle.taf_sources.specs.Items as leg;
ghost use Rattle.taf_sources.specs.Changes as change;
ghost use Rattle.report_sources.specs.Source.{SourcePart};
ghost use Rattle.report_sources.specs.Forecasts.{forecast_at};

use record::aerodrome::Edition;
use report_record::kinds::Kind;
use sources::kinds::{Source, Spot};
use taf_sources::kinds::{ChangeElement, Element};

// The group that was taken at a spot of a part.
#[tactic(auto, unfolding(crate::specs::Forecasts::forecast_at))]
fn find(edition: Edition, text: &[u8], part: usize, spot: Spot) -> Option<Source>
    ensures { result ≡ forecast_at edition text.now part spot }
{
    match report::read_in(edition, text).report.kind {
        Kind::Forecast => taf_sources::find(edition, text, part, spot),
        Kind::Missing | Kind::Surface | Kind::Observed => None,
    }
}

// An item of the main part; of those that may be several, the one with so many before it.
pub fn item(edition: Edition, text: &[u8], element: Element, count: usize) -> &[u8]
    ensures { SourcePart text.entry result (forecast_at edition text.now 0 (spot.At (leg.place_of element) count)) }
{
    let place = taf_sources::place_of(element);
    sources::part_of(text, find(edition, text, 0, Spot::At { place, count }))
}

// An item of a change group, the first being part 1.
pub fn changed(
    edition: Edition,
    text: &[u8],
    part: usize,
    element: ChangeElement,
    count: usize,
) -> &[u8]
    ensures { SourcePart text.entry result (forecast_at edition text.now part (spot.At (change.place_of element) count)) }
{
    let place = taf_sources::change_place_of(element);
    sources::part_of(text, find(edition, text, part, Spot::At { place, count }))
}

// The word that opened a change group: BECMG, TEMPO, PROB30 or PROB40, or FM with its time.
pub fn opened(edition: Edition, text: &[u8], part: usize) -> &[u8]
    ensures { SourcePart text.entry result (forecast_at edition text.now part spot.Opening) }
{
    sources::part_of(text, find(edition, text, part, Spot::Opening))
}

// TEMPO where it belongs to that word, PROB30 TEMPO or PROB40 TEMPO.
pub fn joined(edition: Edition, text: &[u8], part: usize) -> &[u8]
    ensures { SourcePart text.entry result (forecast_at edition text.now part spot.Joined) }
{
    sources::part_of(text, find(edition, text, part, Spot::Joined))
}
