// The library's face: the public calls. `name` says which kind of report a text is, `read` what it says, `rest` hands back its unread part, `write` writes
// a record into a lent buffer, `standing` hands back the one of two texts that stands.
#![tactic(auto)]

ghost use Rattle.std.specs.Prelude.{◌≡◌, length};
ghost use Rattle.report_record.specs.declared.kinds.Kind.TheVariants as kind;
ghost use Rattle.text.specs.Groups.{groups_from};
ghost use Rattle.text.specs.Part.{PartAt};
ghost use Rattle.report.specs.Read.{name_by, first_name, name_of, read_in, read_of, rest_place_in, rest_place};
ghost use Rattle.report.specs.Write.{written_by, buffer_after, WrittenAnyway, written_in, buffer_in, written_of, buffer_of};
ghost use Rattle.report.specs.Standing.{stands_of, PartStanding};

use record::aerodrome::Edition;
use report_record::kinds::{Kind, Name, Reading, Report, Stands};
use report_record::{answer, kinship};
use shapes::has_pattern;
use text::kinds::{Bytes, Cut, Refusal, Refused};

// ---- reading

// What the first group names; it stands at `place`, and `at` is where it ends.
fn name_group(g: &[u8], place: usize, at: usize) -> Name
    ensures { result ≡ name_by g.now place at }
{
    if has_pattern(g, b"AAXX") {
        return Name::Surface { ship: false, at };
    }
    if has_pattern(g, b"BBXX") {
        return Name::Surface { ship: true, at };
    }
    if has_pattern(g, b"METAR") {
        return Name::Observed { special: false, at };
    }
    if has_pattern(g, b"SPECI") {
        return Name::Observed { special: true, at };
    }
    if has_pattern(g, b"TAF") {
        return Name::Forecast { at };
    }
    Name::Refused {
        refusal: Refusal::Kind,
        place,
    }
}

fn name_first(text: &[u8]) -> Name
    ensures { result ≡ first_name (groups_from text.now 0) }
{
    match text::next_group(text, 0) {
        Cut::End { at: _ } => Name::Refused {
            refusal: Refusal::Kind,
            place: 0,
        },
        Cut::Group { start, end } => name_group(text::part(text, start, end), start, end),
    }
}

// The kind that a text's first group names, and where the groups behind it begin; or refusal 1, 2 or 3. Who wants the reports of one kind only goes on
// with that kind's own reader: `synop::read::read_from`, `metar::read::read_from`, `taf::read::read_from`.
#[tactic(auto, unfolding(crate::specs::Read::name_of))]
pub fn name(text: &[u8]) -> Name
    ensures { result ≡ name_of text.now }
{
    match text::judge_bytes(text) {
        Bytes::Length => Name::Refused {
            refusal: Refusal::Length,
            place: 0,
        },
        Bytes::Byte(place) => Name::Refused {
            refusal: Refusal::Byte,
            place,
        },
        Bytes::Sound => name_first(text),
    }
}

// What a text says, a TAF in the edition that is named, or the first fault and its place with a blank record.
pub fn read_in(edition: Edition, text: &[u8]) -> Reading
    ensures { result ≡ read_in edition text.now }
{
    match name(text) {
        Name::Surface { ship, at } => {
            let reading = synop::read::read_from(text, at, ship);
            answer::of_surface(reading.verdict, reading.report)
        }
        Name::Observed { special, at } => {
            let reading = metar::read::read_from(text, at, special);
            answer::of_observed(reading.verdict, reading.report)
        }
        Name::Forecast { at } => {
            let reading = taf::read::read_from_in(edition, text, at);
            answer::of_forecast(reading.verdict, reading.report)
        }
        Name::Refused { refusal, place } => answer::refuse(refusal, place),
    }
}

// The same with a TAF in the present edition; so in every call that names none.
pub fn read(text: &[u8]) -> Reading
    ensures { result ≡ read_of text.now }
{
    read_in(Edition::Present, text)
}

// Whether a text is accepted, and where its unread rest begins, or its refusal and place: what `read_in` answers, without the record.
pub fn verdict_in(edition: Edition, text: &[u8]) -> Result<usize, Refused>
    ensures { result ≡ (read_in edition text.now).verdict }
{
    match name(text) {
        Name::Surface { ship, at } => synop::read::read_from(text, at, ship).verdict,
        Name::Observed { special, at } => metar::read::read_from(text, at, special).verdict,
        Name::Forecast { at } => taf::read::read_from_in(edition, text, at).verdict,
        Name::Refused { refusal, place } => Err(Refused { refusal, place }),
    }
}

pub fn verdict_of(text: &[u8]) -> Result<usize, Refused>
    ensures { result ≡ (read_of text.now).verdict }
{
    verdict_in(Edition::Present, text)
}

// Where the unread rest begins: at the text's end where there is none, or the text is refused.
#[tactic(auto, unfolding(crate::specs::Read::rest_place_in))]
pub fn rest_place_in(edition: Edition, text: &[u8]) -> usize
    ensures { result ≡ rest_place_in edition text.now }
{
    match verdict_in(edition, text) {
        Ok(rest) => rest,
        Err(_) => text.len(),
    }
}

pub fn rest_place(text: &[u8]) -> usize
    ensures { result ≡ rest_place text.now }
{
    rest_place_in(Edition::Present, text)
}

// The unread rest, where it lies in the caller's text: from its place to the text's end.
pub fn rest_in(edition: Edition, text: &[u8]) -> &[u8]
    ensures { PartAt text.entry result (rest_place_in edition text.now) (length text.now) }
{
    text::part_at(text, rest_place_in(edition, text), text.len())
}

pub fn rest(text: &[u8]) -> &[u8]
    ensures { PartAt text.entry result (rest_place text.now) (length text.now) }
{
    rest_in(Edition::Present, text)
}

// ---- writing: the parts of the other kinds are judged first

fn write_surface(report: Report, out: &mut [u8]) -> Result<usize, Refusal>
    ensures { WrittenAnyway kind.Surface report out.old result out.new }
{
    if report.observed.is_blank() & report.forecast.is_blank() {
        return synop_write::write::write(report.surface, out);
    }
    Err(Refusal::Value)
}

fn write_observed(report: Report, out: &mut [u8]) -> Result<usize, Refusal>
    ensures { WrittenAnyway kind.Observed report out.old result out.new }
{
    if report.surface.is_blank() & report.forecast.is_blank() {
        return metar_write::write::write(report.observed, out);
    }
    Err(Refusal::Value)
}

fn write_forecast(edition: Edition, report: Report, out: &mut [u8]) -> Result<usize, Refusal>
    ensures { (result ≡ written_by edition kind.Forecast report (length out.old)) × (out.new ≡ buffer_after edition kind.Forecast report out.old) }
{
    if report.surface.is_blank() & report.observed.is_blank() {
        return taf_write::write::write_in(edition, report.forecast, out);
    }
    Err(Refusal::Value)
}

// The record's canonical text goes into the lent buffer, or the buffer stays as it came. A TAF of another edition than the one that is named is refused.
pub fn write_in(edition: Edition, report: Report, out: &mut [u8]) -> Result<usize, Refusal>
    ensures { (result ≡ written_in edition report (length out.old)) × (out.new ≡ buffer_in edition report out.old) }
{
    match report.kind {
        Kind::Missing => Err(Refusal::Value),
        Kind::Surface => write_surface(report, out),
        Kind::Observed => write_observed(report, out),
        Kind::Forecast => write_forecast(edition, report, out),
    }
}

pub fn write(report: Report, out: &mut [u8]) -> Result<usize, Refusal>
    ensures { (result ≡ written_of report (length out.old)) × (out.new ≡ buffer_of report out.old) }
{
    write_in(Edition::Present, report, out)
}

// ---- which text stands

// Which of the two it is.
#[tactic(auto, unfolding(crate::specs::Standing::stands_of))]
pub fn which_stands(first: &[u8], second: &[u8]) -> Stands
    ensures { result ≡ stands_of first.now second.now }
{
    let before = read(first);
    let after = read(second);
    kinship::judge_standing(before.report, after.report)
}

// The standing text's trimmed part, a part of whichever it stands in; where neither stands, the empty part at the first one's end.
pub fn standing<'a>(first: &'a [u8], second: &'a [u8]) -> &'a [u8]
    ensures { PartStanding (stands_of first.now second.now) first.entry second.entry result }
{
    match which_stands(first, second) {
        Stands::First => text::trimmed(first),
        Stands::Second => text::trimmed(second),
        Stands::Neither => text::part_at(first, first.len(), first.len()),
    }
}
