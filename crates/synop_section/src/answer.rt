// The answer to a text: accepted, with the record and where the unread rest begins, or refused, with a blank record.
ghost use Rattle.std.specs.Prelude.{◌≡◌};
ghost use Rattle.places.specs.Answer.{outcome_of};
ghost use Rattle.synop_section.specs.Answer.{begun, accepted, refused, answer};

use crate::kinds::Reading;
use record::blank_surface::{blank_section3, blank_site, blank_surface, blank_synop};
use record::surface::Synop;
use text::kinds::{Refusal, Refused};

// A blank record of a land station's or a ship's report.
pub fn begin(ship: bool) -> Synop
    ensures { result ≡ begun ship }
{
    let site = blank_site();
    let surface = blank_surface();
    let section3 = blank_section3();
    Synop {
        ship,
        site,
        surface,
        section3,
    }
}

pub fn refuse(refusal: Refusal, place: usize) -> Reading
    ensures { result ≡ refused refusal place }
{
    let report = blank_synop();
    Reading {
        verdict: Err(Refused { refusal, place }),
        report,
    }
}

pub fn accept(rest: usize, report: Synop) -> Reading
    ensures { result ≡ accepted rest report }
{
    Reading {
        verdict: Ok(rest),
        report,
    }
}

// The answer by a verdict: the report that it accepts, or its refusal. There is one way out, with the blank record put over the report where the text is
// refused: of two ways out, each with a record of its own, the compiler makes many more copies.
pub fn by_verdict(verdict: Result<usize, Refused>, report: Synop) -> Reading
    ensures { result ≡ answer (outcome_of verdict report) }
{
    let mut whole = report;
    if let Err(_) = verdict {
        whole = blank_synop();
    }
    Reading {
        verdict,
        report: whole,
    }
}
