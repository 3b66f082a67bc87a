// The answer to a text: accepted, with the record and where the unread rest begins, or refused, with a blank record.
ghost use Rattle.std.specs.Prelude.{◌≡◌};
ghost use Rattle.taf.specs.Read.{accepted, refused};

use crate::kinds::Reading;
use record::aerodrome::Taf;
use record::blank_aerodrome::blank_taf;
use text::kinds::{Refusal, Refused};

pub fn refuse(refusal: Refusal, place: usize) -> Reading
    ensures { result ≡ refused refusal place }
{
    Reading {
        verdict: Err(Refused { refusal, place }),
        report: blank_taf(),
    }
}

pub fn accept(rest: usize, report: Taf) -> Reading
    ensures { result ≡ accepted rest report }
{
    Reading {
        verdict: Ok(rest),
        report,
    }
}
