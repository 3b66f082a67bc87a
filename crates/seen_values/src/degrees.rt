// Aerodrome temperature: tenths that are written as one whole degree, five below it to four above; M00 and 00 share the ten tenths around zero.
ghost use Rattle.std.specs.Prelude.{◌≡◌};
ghost use Rattle.seen_values.specs.Rounded.{seen_degrees, seen_cold, seen_warm, spread, no_degrees};

use crate::kinds::DegreesSeen;
use figures::signed;
use scales::degrees::signed_reading;

// From one magnitude to the other, both with the sign's figure.
fn spread(sign: u32, least: u32, greatest: u32) -> DegreesSeen
    ensures { result ≡ spread sign least greatest }
{
    DegreesSeen {
        least: signed_reading(sign, least),
        greatest: signed_reading(sign, greatest),
    }
}

fn nothing() -> DegreesSeen
    ensures { result ≡ no_degrees }
{
    DegreesSeen {
        least: None,
        greatest: None,
    }
}

// Below zero, by the magnitude of the reading; -0.3 is that of M00.
fn cold_seen(m: u32) -> DegreesSeen
    ensures { result ≡ seen_cold m }
{
    if m == 3 {
        spread(1, 5, 1)
    } else if m < 10 {
        nothing()
    } else if 990 < m {
        nothing()
    } else if m % 10 == 0 {
        spread(1, m + 5, m - 4)
    } else {
        nothing()
    }
}

// From zero on.
fn warm_seen(m: u32) -> DegreesSeen
    ensures { result ≡ seen_warm m }
{
    if m == 0 {
        spread(0, 0, 4)
    } else if m < 10 {
        nothing()
    } else if 990 < m {
        nothing()
    } else if m % 10 == 0 {
        spread(0, m - 5, m + 4)
    } else {
        nothing()
    }
}

pub fn degrees_seen(tenths: i32) -> DegreesSeen
    ensures { result ≡ seen_degrees tenths }
{
    let m = signed::magnitude(tenths);
    if signed::is_negative(tenths) {
        cold_seen(m)
    } else {
        warm_seen(m)
    }
}
