// Demand 3 of the calls: a record is written, and what was written is read. Every record of the code has the arrays of its type, so that nothing is asked of
// the caller.
#![tactic(auto)]

ghost use Rattle.std.specs.Prelude.{ℕ, ◌≡◌, length, take, Ok};
ghost use Rattle.record.specs.declared.aerodrome.Edition.TheVariants as edition;
ghost use Rattle.report.specs.Write.{buffer_in};
ghost use Rattle.report_laws.proofs.Demands.{ReadWhole};
ghost use Rattle.round_trip.specs.Back.{back_in};

use record::aerodrome::Edition;
use report_record::answer;
use report_record::kinds::{Reading, Report};
use text::kinds::Refusal;

// What the writer answers, and what the reader makes of the bytes that were written; where the record is refused, a refused reading with a blank record.
#[derive(Clone, Copy)]
pub struct Back {
    pub written: Result<usize, Refusal>,
    pub reading: Reading,
}

// A record written into the lent buffer, a TAF in the edition that is named, and read from there in the same edition.
// Its proof is walked by hand: what the arrays' types say of the record is read off the walk, and the check does not come to an end without it.
pub fn read_back_in(edition: Edition, report: Report, out: &mut [u8]) -> Back
    ensures { (result ≡ back_in edition report (length out.old)) × (out.new ≡ buffer_in edition report out.old) × ((n : ℕ) → result.written ≡ Ok n → ReadWhole edition report n (take n out.new)) }
{
    let written = report::write_in(edition, report, out);
    match written {
        Ok(count) => {
            let reading = report::read_in(edition, &out[..count]);
            Back { written, reading }
        }
        Err(refusal) => {
            let reading = answer::refuse(refusal, 0);
            Back { written, reading }
        }
    }
}

// With a TAF in the present edition.
pub fn read_back(report: Report, out: &mut [u8]) -> Back
    ensures { (result ≡ back_in edition.Present report (length out.old)) × (out.new ≡ buffer_in edition.Present report out.old) × ((n : ℕ) → result.written ≡ Ok n → ReadWhole edition.Present report n (take n out.new)) }
{
    read_back_in(Edition::Present, report, out)
}
