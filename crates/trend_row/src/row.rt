// What the row of a trend's change has, in the code's words: which places have a group's shape, how many may stand, and which place a group goes to.
// After NOSIG its places are closed.
ghost use Rattle.std.specs.Prelude.{◌≡◌};
ghost use Rattle.places.specs.Seek.{find_of};
ghost use Rattle.places.specs.Engine.{stands_of};
ghost use Rattle.trend_row.specs.Row.{is_change, row};
ghost use Rattle.std.proofs.Common.{refl};
ghost use Rattle.rows.proofs.First.{few_of};

use crate::kinds::Word;
use body::read::has_weather_or_nsw;
use metar_row::is_known;
use places::kinds::Found;
use record::aerodrome::TrendChange;
use rows::Row;
use shapes::has_pattern;
use sky::read::has_sky;
use wind::read::{has_visibility, has_wind};

pub fn is_change(word: Word) -> bool
    ensures { result ≡ is_change word }
{
    match word {
        Word::Nosig => false,
        Word::Becoming => true,
        Word::Temporary => true,
    }
}

// The row of a change: its places are free, or closed as after NOSIG. None must have a group.
#[derive(Clone, Copy)]
struct ChangeRow {
    free: bool,
}

impl Row<8> for ChangeRow {
    type Record = TrendChange;

    ghost places = { λ r. row r.free };

    // After every word the same.
    #[tactic(auto, unfolding(crate::specs::Row::row))]
    fn has_at(self, place: usize, g: &[u8]) -> bool {
        match place {
            0 => is_known(g),
            1 => has_pattern(g, b"FM####"),
            2 => has_pattern(g, b"TL####"),
            3 => has_pattern(g, b"AT####"),
            4 => has_wind(g),
            5 => has_visibility(g),
            6 => has_weather_or_nsw(g),
            7 => has_sky(g),
            _ => false,
        }
    }

    #[tactic(auto, unfolding(crate::specs::Row::row))]
    fn mosts(self) -> [u8; 8] {
        if self.free {
            [0, 1, 1, 1, 1, 1, 3, 4]
        } else {
            [0; 8]
        }
    }

    fn musts(self) -> [bool; 8] {
        [false; 8]
    }

    ghost few = { few_of 8 refl };
}

// The place that the group goes to.
pub fn find(free: bool, place: usize, count: usize, g: &[u8]) -> Found
    ensures { result ≡ find_of (stands_of (row free) g.now) place count }
{
    rows::find(ChangeRow { free }, place, count, g)
}
