// The answer to a text of any kind: what the reader of its kind answers, with the parts of the other kinds blank.
ghost use Rattle.std.specs.Prelude.{◌≡◌};
ghost use Rattle.record.specs.Blank.{blank_synop};
ghost use Rattle.record.specs.Trend.{blank_metar};
ghost use Rattle.record.specs.Taf.{blank_taf};
ghost use Rattle.report_record.specs.Record.{report_of, kind_by, of_surface, of_observed, of_forecast, refused};

use crate::kinds::{Kind, Reading, Report};
use record::aerodrome::{Metar, Taf};
use record::blank_aerodrome::{blank_metar, blank_taf};
use record::blank_surface::blank_synop;
use record::surface::Synop;
use text::kinds::{Refusal, Refused};

// The report of an accepted text has its kind, that of a refused one none.
fn kind_by(verdict: Result<usize, Refused>, kind: Kind) -> Kind
    ensures { result ≡ kind_by verdict kind }
{
    match verdict {
        Ok(_) => kind,
        Err(_) => Kind::Missing,
    }
}

// A report of this kind in which nothing is said: the parts that a reading does not fill.
pub fn blank_report(kind: Kind) -> Report
    ensures { result ≡ report_of kind blank_synop blank_metar blank_taf }
{
    Report {
        kind,
        surface: blank_synop(),
        observed: blank_metar(),
        forecast: blank_taf(),
    }
}

// What the reader of SYNOP and SHIP answers; where it refuses the text, its record is blank.
pub fn of_surface(verdict: Result<usize, Refused>, surface: Synop) -> Reading
    ensures { result ≡ of_surface verdict surface }
{
    let report = Report {
        surface,
        ..blank_report(kind_by(verdict, Kind::Surface))
    };
    Reading { verdict, report }
}

// The same of METAR and SPECI.
pub fn of_observed(verdict: Result<usize, Refused>, observed: Metar) -> Reading
    ensures { result ≡ of_observed verdict observed }
{
    let report = Report {
        observed,
        ..blank_report(kind_by(verdict, Kind::Observed))
    };
    Reading { verdict, report }
}

// The same of TAF.
pub fn of_forecast(verdict: Result<usize, Refused>, forecast: Taf) -> Reading
    ensures { result ≡ of_forecast verdict forecast }
{
    let report = Report {
        forecast,
        ..blank_report(kind_by(verdict, Kind::Forecast))
    };
    Reading { verdict, report }
}

// A text that no kind's reader has seen.
pub fn refuse(refusal: Refusal, place: usize) -> Reading
    ensures { result ≡ refused refusal place }
{
    Reading {
        verdict: Err(Refused { refusal, place }),
        report: blank_report(Kind::Missing),
    }
}
