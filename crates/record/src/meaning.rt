// What some figures of SYNOP and SHIP stand for, for whoever reads a table of records.
ghost use Rattle.std.specs.Prelude.{◌≡◌};
ghost use Rattle.record.specs.Meaning.{surface_of, unit_of};

use crate::aerodrome::Unit;

// The pressure in hPa of the isobaric surface that the figure a of 4ahhh names; missing where it names none.
pub fn isobaric_surface(a: u32) -> Option<u32>
    ensures { result ≡ surface_of a }
{
    if a == 1 {
        return Some(1000);
    }
    if a == 2 {
        return Some(925);
    }
    if a == 5 {
        return Some(500);
    }
    if a == 7 {
        return Some(700);
    }
    if a == 8 { Some(850) } else { None }
}

// The unit of wind speed that the figure iw names; missing where it names none.
pub fn speed_unit(iw: Option<u32>) -> Unit
    ensures { result ≡ unit_of iw }
{
    match iw {
        None => Unit::Missing,
        Some(n) => {
            if (n == 0) | (n == 1) {
                return Unit::MetresPerSecond;
            }
            if (n == 3) | (n == 4) {
                Unit::Knots
            } else {
                Unit::Missing
            }
        }
    }
}
