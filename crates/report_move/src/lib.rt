// A report moved between the editions of TAF: the public call.
#![tactic(auto)]

pub mod kinds;

ghost use Rattle.std.specs.Prelude.{◌≡◌, Err};
ghost use Rattle.report_record.specs.Record.{blank_report};
ghost use Rattle.report_move.specs.Move.{is_taf, moved_by, moved_of};

use crate::kinds::Moved;
use record::aerodrome::Edition;
use report_record::answer::blank_report;
use report_record::kinds::{Kind, Report};
use taf_move::move_taf;
use text::kinds::Refusal;

fn is_taf(kind: Kind) -> bool
    ensures { result ≡ is_taf kind }
{
    matches!(kind, Kind::Forecast)
}

fn refuse(refusal: Refusal) -> Moved
    ensures { result ≡ moved_by (Err refusal) blank_report }
{
    Moved {
        judged: Err(refusal),
        report: blank_report(Kind::Missing),
    }
}

// The report in this edition, so many days being in the starting month. Refused are, in this order: 11 a record that is no TAF of the other edition, 11 or 7
// one that the writer refuses, 11 a month or a day that does not fit, 15 times that do not.
pub fn move_report(to: Edition, days: u32, report: Report) -> Moved
    ensures { result ≡ moved_of to days report }
{
    if !(is_taf(report.kind) & report.surface.is_blank() & report.observed.is_blank()) {
        return refuse(Refusal::Value);
    }
    let moved = move_taf(to, days, report.forecast);
    match moved.judged {
        Err(refusal) => refuse(refusal),
        Ok(()) => Moved {
            judged: Ok(()),
            report: Report {
                forecast: moved.forecast,
                ..report
            },
        },
    }
}
