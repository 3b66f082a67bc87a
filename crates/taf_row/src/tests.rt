// What decides at a group or at a part's end: whether TEMPO belongs to PROB, whether a part is whole, whether there is room for one change more.
ghost use Rattle.std.specs.Prelude.{◌≡◌};
ghost use Rattle.taf_row.specs.Tests.{is_probable, joins, Owes, is_full};

use crate::kinds::Part;
use crate::row::{is_main, musts};
use body::judge::has_element;
use record::aerodrome::{Leg, Opening};
use shapes::has_pattern;

// ---- at a group

fn is_probable(opening: Opening) -> bool
    ensures { result ≡ is_probable opening }
{
    match opening {
        Opening::None => false,
        Opening::Becoming => false,
        Opening::Temporary => false,
        Opening::Probable(_) => true,
        Opening::ProbablyTemporary(_) => false,
        Opening::From => false,
    }
}

// TEMPO at once after PROB30 or PROB40
pub fn does_join(opening: Opening, g: &[u8]) -> bool
    ensures { result ≡ joins opening g.now }
{
    let probable = is_probable(opening);
    let joining = has_pattern(g, b"TEMPO");
    probable & joining
}

// ---- at a part's end

// Is a required group absent, or has a change body no element?
pub fn owes(part: Part, place: usize, count: usize, r: Leg) -> bool
    ensures { Owes part place count r result }
{
    let must = musts(part);
    let owed = places::is_owed(&must, place, count);
    let main = is_main(part);
    let body = r.body;
    let some = has_element(body);
    owed | !(main | some)
}

// There is no room for one change more.
pub fn is_full(changes: usize) -> bool
    ensures { result ≡ is_full changes }
{
    16 <= changes
}
