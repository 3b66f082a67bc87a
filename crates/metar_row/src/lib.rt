// The tests of the row of METAR and SPECI: its words, the shapes of its places, how many groups may or must stand at each, and where a group goes.
#![tactic(auto)]

ghost use Rattle.std.specs.Prelude.{◌≡◌};
ghost use Rattle.shapes.specs.Pattern.{has_any};
ghost use Rattle.places.specs.Seek.{find_of};
ghost use Rattle.places.specs.Engine.{stands_of, musts_of, onward};
ghost use Rattle.metar_row.specs.Row.{is_name, time_shapes, row, is_known, words};
ghost use Rattle.std.proofs.Common.{refl};
ghost use Rattle.rows.proofs.First.{few_of};

use aerodrome_groups::read::{has_runway, has_temperatures};
use body::read::has_weather_or_nsw;
use places::kinds::Found;
use record::aerodrome::Observation;
use rows::Row;
use runway_states::read::has_state;
use shapes::has_pattern;
use sky::read::has_sky;
use weather::read::has_recent;
use wind::read::{has_variation, has_visibility, has_wind};

// METAR or SPECI
pub fn is_name(g: &[u8]) -> bool
    ensures { result ≡ is_name g.now }
{
    let metar = has_pattern(g, b"METAR");
    let special = has_pattern(g, b"SPECI");
    metar | special
}

// A word that ends the observation or a change of the trend: one of the trend's, or a stop word.
pub fn is_word(g: &[u8]) -> bool
    ensures { result ≡ has_any words g.now }
{
    let nosig = has_pattern(g, b"NOSIG");
    let becoming = has_pattern(g, b"BECMG");
    let temporary = has_pattern(g, b"TEMPO");
    let shear = has_pattern(g, b"WS");
    let remarks = has_pattern(g, b"RMK");
    nosig | becoming | temporary | shear | remarks
}

// FM, TL or AT with a time
fn is_time(g: &[u8]) -> bool
    ensures { result ≡ has_any time_shapes g.now }
{
    let from = has_pattern(g, b"FM####");
    let until = has_pattern(g, b"TL####");
    let at = has_pattern(g, b"AT####");
    from | until | at
}

// Which places must have a group?
#[tactic(auto, unfolding(crate::specs::Row::row))]
pub fn musts() -> [bool; 19]
    ensures { result ≡ musts_of row }
{
    [
        true, false, true, true, false, false, true, false, true, false, false, false, true, true,
        false, false, false, false, false,
    ]
}

// The row of the observation.
#[derive(Clone, Copy)]
struct ObservationRow;

impl Row<19> for ObservationRow {
    type Record = Observation;

    ghost places = { λ _. row };

    #[tactic(auto, unfolding(crate::specs::Row::row))]
    fn has_at(self, place: usize, g: &[u8]) -> bool {
        match place {
            0 => is_name(g),
            1 => has_pattern(g, b"COR"),
            2 => has_pattern(g, b"@@@@"),
            3 => has_pattern(g, b"######Z"),
            4 => has_pattern(g, b"NIL"),
            5 => has_pattern(g, b"AUTO"),
            6 => has_wind(g),
            7 => has_variation(g),
            8 => has_visibility(g),
            9 => has_runway(g),
            10 => has_weather_or_nsw(g),
            11 => has_sky(g),
            12 => has_temperatures(g),
            13 => has_pattern(g, b"Q####"),
            14 => has_recent(g),
            15 => has_state(g),
            16 => has_pattern(g, b"SNOCLO"),
            17 => has_state(g),
            18 => is_time(g),
            _ => false,
        }
    }

    #[tactic(auto, unfolding(crate::specs::Row::row))]
    fn mosts(self) -> [u8; 19] {
        [1, 1, 1, 1, 1, 1, 1, 1, 1, 4, 3, 4, 1, 1, 3, 4, 1, 1, 0]
    }

    fn musts(self) -> [bool; 19] {
        musts()
    }

    ghost few = { few_of 19 refl };
}

// Has some place of the observation the group's shape?
#[tactic(auto, unfolding(crate::specs::Row::is_known))]
pub fn is_known(g: &[u8]) -> bool
    ensures { result ≡ is_known g.now }
{
    rows::is_known(ObservationRow, g)
}

// The place that the group goes to.
pub fn find(place: usize, count: usize, g: &[u8]) -> Found
    ensures { result ≡ find_of (stands_of row g.now) place count }
{
    rows::find(ObservationRow, place, count, g)
}

// Past NIL reading is past the row.
pub fn go_past(place: usize) -> usize
    ensures { result ≡ onward row place }
{
    if place == 4 { 19 } else { place }
}
