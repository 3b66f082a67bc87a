// Moves one TAF to the other edition. The first line of standard input is "to 2005 DAYS" or "to present DAYS", the TAF every byte after it. Prints the
// canonical text of the new record, "refused N at P" of a text that the reader refuses, "refused N" of a record that the move refuses, or "bad call".
#![tactic(auto)]

use answers::input::read_full;
use figures::kinds::Field;
use record::aerodrome::Edition;
use report_record::kinds::Report;
use std::io;
use std::io::Write;
use text::kinds::{Refusal, Refused};

// Of a refused record there is no place.
fn say_refused(out: &mut impl Write, r: Refusal) -> io::Result<()> {
    answers::say(out, b"refused ")?;
    answers::say_number(out, usize::from(text::refusal_number(r)))
}

fn say_moved(out: &mut impl Write, to: Edition, days: u32, report: Report) -> io::Result<()> {
    let moved = report_move::move_report(to, days, report);
    match moved.judged {
        Ok(()) => answers::say_report(out, to, moved.report),
        Err(refusal) => say_refused(out, refusal),
    }
}

// The text is read in the edition that is left.
fn answer(
    out: &mut impl Write,
    left: Edition,
    to: Edition,
    days: Field,
    report_text: &[u8],
) -> io::Result<()> {
    let Field::Number(number) = days else {
        return answers::say(out, b"bad call");
    };
    let reading = report::read_in(left, report_text);
    match reading.verdict {
        Ok(_) => say_moved(out, to, number, reading.report),
        Err(Refused { refusal, place }) => answers::say_refusal(out, refusal, place),
    }
}

// DAYS, one to five figures from here to the line's end.
fn days_from(line: &[u8], at: usize) -> Field {
    let end = line.len();
    if end < at {
        return Field::Other;
    }
    figures::field(line, at, end - at)
}

fn call(out: &mut impl Write, line: &[u8], report_text: &[u8]) -> io::Result<()> {
    if shapes::has_pattern(line, b"to 2005 *") {
        let days = days_from(line, 8);
        answer(out, Edition::Present, Edition::Of2005, days, report_text)
    } else if shapes::has_pattern(line, b"to present *") {
        let days = days_from(line, 11);
        answer(out, Edition::Of2005, Edition::Present, days, report_text)
    } else {
        answers::say(out, b"bad call")
    }
}

// Where the first line ends: at the first LF, or where the input does.
fn line_end(input: &[u8]) -> usize {
    for (i, byte) in input.iter().enumerate() {
        if *byte == b'\n' {
            return i;
        }
    }
    input.len()
}

fn main(rt: HostRuntime) -> io::Result<()> {
    let out = &mut rt.stdout();
    // the longest first line and a text that is seen to be too long
    let mut input = [0u8; 2066];
    let n = read_full(&mut rt.stdin(), &mut input)?;
    let end = line_end(text::part(&input, 0, n));
    let line = text::part(&input, 0, end);
    if end < n {
        call(out, line, text::part(&input, end + 1, n))?;
    } else {
        call(out, line, text::part(&input, n, n))?;
    }
    answers::say(out, b"\n")
}
