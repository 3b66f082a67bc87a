// Temperatures: tenths of a degree as whole degrees, halves up, with the sign of the value; and signed tenths, which are exact.
ghost use Rattle.std.specs.Prelude.{◌≡◌, ◌≤◌, Some};
ghost use Rattle.figures.specs.Signed.{with_sign};
ghost use Rattle.scales.specs.Degrees.{degrees_of, degrees_reading, signed_reading};

use crate::kinds::Degrees;
use figures::signed;

// -99.5 to 99.4 degrees. Below zero a half goes up, towards zero, and the minus stays where that gives 0: -0.4 is M00.
pub fn degrees_figure(tenths: i32) -> Option<Degrees>
    ensures { result ≡ degrees_of tenths }
{
    let m = signed::magnitude(tenths);
    if signed::is_negative(tenths) {
        if m <= 995 {
            Some(Degrees {
                minus: true,
                whole: (m + 4) / 10,
            })
        } else {
            None
        }
    } else if m <= 994 {
        Some(Degrees {
            minus: false,
            whole: (m + 5) / 10,
        })
    } else {
        None
    }
}

// A sign and a magnitude as tenths.
fn tenths_of(minus: bool, m: u32) -> Option<i32>
    requires { m ≤ 999 }
    ensures { result ≡ Some (with_sign minus m) }
{
    signed::signed_of(minus, m)
}

// M00 is read as the middle of its class, -0.3.
pub fn degrees_reading(minus: bool, whole: u32) -> Option<i32>
    ensures { result ≡ degrees_reading minus whole }
{
    if 99 < whole {
        None
    } else if minus & (whole == 0) {
        tenths_of(true, 3)
    } else {
        tenths_of(minus, whole * 10)
    }
}

// The sign's figure is 0 or 1, and 1 with 000 has no reading.
pub fn signed_reading(sign: u32, figures: u32) -> Option<i32>
    ensures { result ≡ signed_reading sign figures }
{
    if 999 < figures {
        None
    } else if sign == 0 {
        tenths_of(false, figures)
    } else if sign == 1 {
        if figures == 0 {
            None
        } else {
            tenths_of(true, figures)
        }
    } else {
        None
    }
}
