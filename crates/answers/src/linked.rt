// Calls for Rust to link, which the crate `answers_c` exports and `tests/bench` times: the reader of every kind, and each kind's own, and cloud heights by the rule and by the table. Every
// call of a reader reads the text, and then either says the verdict or writes the record that was read. Which of the two is known only at run time, so
// that no call is compiled without making its record.
ghost use Rattle.std.specs.Prelude.{◌≡◌};
ghost use Rattle.text.specs.Refusals.{number_of};

use record::aerodrome::Edition;
use report_record::kinds::Name;
use text::kinds::{Refusal, Refused};

// Nothing was refused: 0, and how many.
fn say(count: usize, number: &mut usize) -> u8
    ensures { (result ≡ 0) × (number.new ≡ count) }
{
    *number = count;
    0
}

// The refusal's number, and the place.
fn say_refused(refusal: Refusal, place: usize, number: &mut usize) -> u8
    ensures { (result ≡ number_of refusal) × (number.new ≡ place) }
{
    *number = place;
    text::refusal_number(refusal)
}

fn say_verdict(verdict: Result<usize, Refused>, number: &mut usize) -> u8 {
    match verdict {
        Ok(rest) => say(rest, number),
        Err(Refused { refusal, place }) => say_refused(refusal, place, number),
    }
}

fn say_written(written: Result<usize, Refusal>, number: &mut usize) -> u8 {
    match written {
        Ok(count) => say(count, number),
        Err(refusal) => say_refused(refusal, 0, number),
    }
}

// A text that is of another kind, or of none.
fn say_other(named: Name, number: &mut usize) -> u8 {
    match named {
        Name::Refused { refusal, place } => say_refused(refusal, place, number),
        _ => say_refused(Refusal::Kind, 0, number),
    }
}

pub fn delgushar_any(text: &[u8], writes: bool, out: &mut [u8], number: &mut usize) -> u8 {
    let reading = report::read(text);
    if writes {
        return say_written(report::write(reading.report, out), number);
    }
    say_verdict(reading.verdict, number)
}

pub fn delgushar_synop(text: &[u8], writes: bool, out: &mut [u8], number: &mut usize) -> u8 {
    let named = report::name(text);
    let Name::Surface { ship, at } = named else {
        return say_other(named, number);
    };
    let reading = synop::read::read_from(text, at, ship);
    if writes {
        return say_written(synop_write::write::write(reading.report, out), number);
    }
    say_verdict(reading.verdict, number)
}

pub fn delgushar_metar(text: &[u8], writes: bool, out: &mut [u8], number: &mut usize) -> u8 {
    let named = report::name(text);
    let Name::Observed { special, at } = named else {
        return say_other(named, number);
    };
    let reading = metar::read::read_from(text, at, special);
    if writes {
        return say_written(metar_write::write::write(reading.report, out), number);
    }
    say_verdict(reading.verdict, number)
}

pub fn delgushar_taf(text: &[u8], writes: bool, out: &mut [u8], number: &mut usize) -> u8 {
    let named = report::name(text);
    let Name::Forecast { at } = named else {
        return say_other(named, number);
    };
    let reading = taf::read::read_from_in(Edition::Present, text, at);
    if writes {
        return say_written(taf_write::write::write(reading.report, out), number);
    }
    say_verdict(reading.verdict, number)
}

// ---- cloud heights

// One code by the rule, answered as the table answers it.
fn height_by_rule(code: u32) -> u32 {
    scales::metres::cloud_reading(code).unwrap_or(cloud_table::UNUSED)
}

pub fn delgushar_heights_by_rule(codes: &[u32], heights: &mut [u32]) -> usize {
    let count = codes.len().min(heights.len());
    for i in 0..count {
        heights[i] = height_by_rule(codes[i]);
    }
    count
}

pub fn delgushar_heights_by_table(codes: &[u32], heights: &mut [u32]) -> usize {
    cloud_table::cloud_heights(codes, heights)
}
