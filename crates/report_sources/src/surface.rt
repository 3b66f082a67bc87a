// The auditor's second question, of SYNOP and SHIP: the part of a text that an item of its record was read from, as the calls for METAR and SPECI hand it back.
ghost use Rattle.std.specs.Prelude.{◌≡◌};
ghost use Rattle.sources.specs.declared.kinds.Spot.TheVariants as spot;
ghost use Rattle.synop_sources.specs.Items.{part_of, spot_of};
ghost use Rattle.report_sources.specs.Source.{SourcePart};
ghost use Rattle.report_sources.specs.Surface.{surface_at, surface_layer};

use report_record::kinds::Kind;
use sources::kinds::{Source, Spot};
use synop_sources::kinds::Element;

// The group that was taken at a spot of a part.
#[tactic(auto, unfolding(crate::specs::Surface::surface_at))]
fn find(text: &[u8], part: usize, spot: Spot) -> Option<Source>
    ensures { result ≡ surface_at text.now part spot }
{
    match report::read(text).report.kind {
        Kind::Surface => synop_sources::find(text, part, spot),
        Kind::Missing | Kind::Observed | Kind::Forecast => None,
    }
}

// The group that says a layer of section 3.
#[tactic(auto, unfolding(crate::specs::Surface::surface_layer))]
fn find_layer(text: &[u8], number: usize) -> Option<Source>
    ensures { result ≡ surface_layer text.now number }
{
    match report::read(text).report.kind {
        Kind::Surface => synop_sources::find_layer(text, number),
        Kind::Missing | Kind::Observed | Kind::Forecast => None,
    }
}

// An item of a SYNOP or SHIP, of section 3 too; its layers apart.
pub fn item(text: &[u8], element: Element) -> &[u8]
    ensures { SourcePart text.entry result (surface_at text.now (part_of element) (spot_of element)) }
{
    let part = synop_sources::part_of(element);
    let place = synop_sources::place_of(element);
    sources::part_of(text, find(text, part, Spot::At { place, count: 0 }))
}

// A layer of section 3, the one with so many before it.
pub fn layer(text: &[u8], number: usize) -> &[u8]
    ensures { SourcePart text.entry result (surface_layer text.now number) }
{
    sources::part_of(text, find_layer(text, number))
}

// The word that opened section 3, 333.
pub fn opened(text: &[u8]) -> &[u8]
    ensures { SourcePart text.entry result (surface_at text.now 1 spot.Opening) }
{
    sources::part_of(text, find(text, 1, Spot::Opening))
}
