// What the programs say of a text: its canonical text or "refused N at P"; the same as calls for Rust to link, which the crate `answers_c` exports;
// and input that is read to its end.
#![tactic(auto)]

pub mod input;
pub mod linked;

use record::aerodrome::Edition;
use report_record::kinds::Report;
use std::io;
use std::io::Write;
use text::kinds::{Refusal, Refused};

pub fn say(out: &mut impl Write, s: &[u8]) -> io::Result<()> {
    out.write_all(s)
}

pub fn say_number(out: &mut impl Write, n: usize) -> io::Result<()> {
    write!(out, "{n}")
}

pub fn say_refusal(out: &mut impl Write, r: Refusal, place: usize) -> io::Result<()> {
    say(out, b"refused ")?;
    say_number(out, usize::from(text::refusal_number(r)))?;
    say(out, b" at ")?;
    say_number(out, place)
}

// What was written of a record that was read, in a buffer that has room for every canonical text; were it refused, the refusal is said.
fn say_written(
    out: &mut impl Write,
    written: Result<usize, Refusal>,
    buffer: &[u8],
) -> io::Result<()> {
    match written {
        Ok(n) => {
            if n <= buffer.len() {
                say(out, &buffer[..n])?;
            }
            Ok(())
        }
        Err(f) => say_refusal(out, f, 0),
    }
}

pub fn say_report(out: &mut impl Write, edition: Edition, r: Report) -> io::Result<()> {
    let mut buffer = [0u8; 2048];
    let written = report::write_in(edition, r, &mut buffer);
    say_written(out, written, &buffer)
}

// The answer to a text, a TAF in the edition that is named, and a line end. Of a refused text nothing is said but the number and the place.
pub fn say_answer_in(out: &mut impl Write, edition: Edition, text: &[u8]) -> io::Result<()> {
    let reading = report::read_in(edition, text);
    match reading.verdict {
        Ok(_) => say_report(out, edition, reading.report)?,
        Err(Refused { refusal, place }) => say_refusal(out, refusal, place)?,
    }
    say(out, b"\n")
}

// The same with a TAF in the present edition.
pub fn say_answer(out: &mut impl Write, text: &[u8]) -> io::Result<()> {
    say_answer_in(out, Edition::Present, text)
}
