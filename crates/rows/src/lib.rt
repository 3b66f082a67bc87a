// Where a group goes, for every row of places: what a row has is a trait, and the search of it is written and proved once.
#![tactic(auto)]

ghost use Rattle.std.specs.Prelude.{◌≡◌, ◌<◌, List, drop, length};
ghost use Rattle.places.specs.Seek.{anywhere, fit_from, find_of};
ghost use Rattle.places.specs.Engine.{Place, place_at, stands_of, mosts_of, musts_of};
ghost use Rattle.rows.specs.First.{if_below};

use places::kinds::Found;
use places::{found_at, may_answer, most_at};
use text::anew;

// A row of N places.
pub trait Row<const N: usize>: Copy {
    // The record that its groups are of.
    type Record;

    ghost places: { Self → List (Place Self.Record) };

    // Has the group the shape of this place?
    fn has_at(self, place: usize, g: &[u8]) -> bool
        ensures { result ≡ (place_at (places self) place).has g.now };

    // How many groups may stand at each place?
    fn mosts(self) -> [u8; N]
        ensures { result ≡ mosts_of (places self) };

    // Which places must have a group?
    fn musts(self) -> [bool; N]
        ensures { result ≡ musts_of (places self) };

    // So few places that a list of them fits in memory.
    ghost few: { N < 256 };
}

// The first place from `place` on, where `count` groups stand, that may answer for the group and has its shape. A shape is asked for only where it may.
fn first_fit<const N: usize, R: Row<N>>(
    row: R,
    all: bool,
    place: usize,
    count: usize,
    g: &[u8],
) -> Option<usize>
    ensures { result ≡ if_below (length (R.places row)) (fit_from all place count (drop place (stands_of (R.places row) g.now))) }
{
    let group = anew(g);
    let most = row.mosts();
    let mut k = count;
    for i in place..N {
        if may_answer(all, k, most_at(&most, i)) && row.has_at(i, group) {
            return Some(i);
        }
        k = 0;
    }
    None
}

// Has some place the group's shape?
pub fn is_known<const N: usize, R: Row<N>>(row: R, g: &[u8]) -> bool
    ensures { result ≡ anywhere (stands_of (R.places row) g.now) }
{
    first_fit(row, true, 0, 0, g).is_some()
}

// The place that the group goes to.
pub fn find<const N: usize, R: Row<N>>(row: R, place: usize, count: usize, g: &[u8]) -> Found
    ensures { result ≡ find_of (stands_of (R.places row) g.now) place count }
{
    match first_fit(row, false, place, count, g) {
        Some(fit) => found_at(&row.mosts(), &row.musts(), place, count, fit),
        None if is_known(row, g) => Found::Earlier,
        None => Found::Unknown,
    }
}
