// A TAF written as its canonical text, over a lent buffer: all of it, or nothing.
ghost use Rattle.std.specs.Prelude.{◌≡◌, cond, ◌∷◌, [], ◌++◌, length, take, Ok};
ghost use Rattle.figures.specs.Put.{Put};
ghost use Rattle.figures.specs.Quote.{bytes};
ghost use Rattle.text.specs.Groups.{written};
ghost use Rattle.text.specs.Write.{answer_by, buffer_by};
ghost use Rattle.places.specs.Engine.{written as groups_at};
ghost use Rattle.record.specs.declared.aerodrome.Edition.TheVariants as edition;
ghost use Rattle.taf_row.specs.declared.kinds.Form.TheVariants as form;
ghost use Rattle.taf_row.specs.declared.kinds.Part.TheVariants as part;
ghost use Rattle.taf_row.specs.Row.{show_correction, show_hour, show_hour_alone, own_form, show_period, row};
ghost use Rattle.taf.specs.Write.{judge_of, show_chance, show_from, leg_of, show_opening, show_change, show_each, groups_of, canonical_of, written_in, buffer_in};

use crate::judge::judge;
use aerodrome_groups::write::{put_station, put_time, put_two};
use body::write::put_body;
use figures::put::{put_byte, put_number, put_text};
use record::aerodrome::{Change, Correction, Edition, Instant, Leg, Opening, Period, Taf};
use record::blank_aerodrome::{blank_instant, blank_station};
use taf::word::part_of;
use taf_row::kinds::{Form, Part};
use taf_row::row::{change_form, own_form};
use text::kinds::Refusal;
use text::write::{close_report, deliver, open_group, put_group, put_if};

// ---- the head

fn put_correction(out: &mut [u8], at: usize, c: Correction) -> usize
    ensures { Put out.old at (written at (show_correction c)) result out.new }
{
    match c {
        Correction::None => at,
        Correction::Amended => put_group(out, at, b"AMD"),
        Correction::Corrected => put_group(out, at, b"COR"),
    }
}

// YYGG
fn put_hour(out: &mut [u8], at: usize, t: Instant) -> usize
    ensures { Put out.old at (show_hour t) result out.new }
{
    let dated = put_two(out, at, t.day);
    put_two(out, dated, t.hour)
}

// GG
fn put_hour_alone(out: &mut [u8], at: usize, t: Instant) -> usize
    ensures { Put out.old at (show_hour_alone t) result out.new }
{
    put_two(out, at, t.hour)
}

// YYGG/YYGG
fn put_both_days(out: &mut [u8], at: usize, p: Period) -> usize
    ensures { Put out.old at (written at (show_period form.BothDays p ∷ [])) result out.new }
{
    let opened = open_group(out, at);
    let begun = put_hour(out, opened, p.from);
    let parted = put_byte(out, begun, b'/');
    put_hour(out, parted, p.to)
}

// Y1Y1G1G1G2G2
fn put_first_day(out: &mut [u8], at: usize, p: Period) -> usize
    ensures { Put out.old at (written at (show_period form.FirstDay p ∷ [])) result out.new }
{
    let opened = open_group(out, at);
    let begun = put_hour(out, opened, p.from);
    put_hour_alone(out, begun, p.to)
}

// GGGeGe
fn put_no_day(out: &mut [u8], at: usize, p: Period) -> usize
    ensures { Put out.old at (written at (show_period form.NoDay p ∷ [])) result out.new }
{
    let opened = open_group(out, at);
    let begun = put_hour_alone(out, opened, p.from);
    put_hour_alone(out, begun, p.to)
}

fn put_period(out: &mut [u8], at: usize, form: Form, p: Period) -> usize
    ensures { Put out.old at (written at (show_period form p ∷ [])) result out.new }
{
    match form {
        Form::BothDays => put_both_days(out, at, p),
        Form::FirstDay => put_first_day(out, at, p),
        Form::NoDay => put_no_day(out, at, p),
    }
}

// The period that the forecast is valid for; a NIL report has none.
fn put_valid(out: &mut [u8], at: usize, nil: bool, form: Form, p: Period) -> usize
    ensures { Put out.old at (written at (cond nil [] (show_period form p ∷ []))) result out.new }
{
    if nil {
        at
    } else {
        put_period(out, at, form, p)
    }
}

// TAF, AMD or COR, CCCC, YYGGggZ, NIL, the period, CNL: the first eight places of the main part.
fn put_main(out: &mut [u8], at: usize, edition: Edition, r: Leg) -> usize
    ensures { Put out.old at (written at (groups_at (take 8 (row edition part.Main)) r)) result out.new }
{
    let named = put_group(out, at, b"TAF");
    let marked = put_correction(out, named, r.correction);
    let sited = put_station(out, marked, r.station);
    let timed = put_time(out, sited, r.time);
    let ended = put_if(out, timed, r.nil, b"NIL");
    let valid = put_valid(out, ended, r.nil, own_form(edition), r.period);
    put_if(out, valid, r.cancelled, b"CNL")
}

// Of these a change group's part has the period alone, and none under FM.
fn put_head(out: &mut [u8], at: usize, edition: Edition, w: Part, r: Leg) -> usize
    ensures { Put out.old at (written at (groups_at (take 8 (row edition w)) r)) result out.new }
{
    match w {
        Part::Main => put_main(out, at, edition, r),
        Part::Changing => put_valid(out, at, r.nil, change_form(edition), r.period),
        Part::From => at,
    }
}

// ---- a part

// The head and then the body.
fn put_part(out: &mut [u8], at: usize, edition: Edition, w: Part, r: Leg) -> usize
    ensures { Put out.old at (written at (groups_at (row edition w) r)) result out.new }
{
    let headed = put_head(out, at, edition, w, r);
    put_body(out, headed, r.body)
}

// ---- changes

// PROB30, PROB40
fn put_chance(out: &mut [u8], at: usize, chance: u32) -> usize
    ensures { Put out.old at (written at (show_chance chance ∷ [])) result out.new }
{
    let opened = open_group(out, at);
    let begun = put_text(out, opened, b"PROB");
    put_number(out, begun, 2, chance)
}

// FMYYGGgg
fn put_from_day(out: &mut [u8], at: usize, t: Instant) -> usize
    ensures { Put out.old at (written at (show_from edition.Present t ∷ [])) result out.new }
{
    let opened = open_group(out, at);
    let begun = put_text(out, opened, b"FM");
    let dated = put_two(out, begun, t.day);
    let timed = put_two(out, dated, t.hour);
    put_two(out, timed, t.minute)
}

// FMGGgg
fn put_from_hour(out: &mut [u8], at: usize, t: Instant) -> usize
    ensures { Put out.old at (written at (show_from edition.Of2005 t ∷ [])) result out.new }
{
    let opened = open_group(out, at);
    let begun = put_text(out, opened, b"FM");
    let timed = put_two(out, begun, t.hour);
    put_two(out, timed, t.minute)
}

fn put_from(out: &mut [u8], at: usize, edition: Edition, t: Instant) -> usize
    ensures { Put out.old at (written at (show_from edition t ∷ [])) result out.new }
{
    match edition {
        Edition::Present => put_from_day(out, at, t),
        Edition::Of2005 => put_from_hour(out, at, t),
    }
}

// PROB30 TEMPO, PROB40 TEMPO
fn put_chances(out: &mut [u8], at: usize, chance: u32) -> usize
    ensures { Put out.old at (written at (show_chance chance ∷ bytes "TEMPO" ∷ [])) result out.new }
{
    let likely = put_chance(out, at, chance);
    put_group(out, likely, b"TEMPO")
}

fn put_opening(out: &mut [u8], at: usize, edition: Edition, o: Opening, p: Period) -> usize
    ensures { Put out.old at (written at (show_opening edition o p)) result out.new }
{
    match o {
        Opening::None => at,
        Opening::Becoming => put_group(out, at, b"BECMG"),
        Opening::Temporary => put_group(out, at, b"TEMPO"),
        Opening::Probable(chance) => put_chance(out, at, chance),
        Opening::ProbablyTemporary(chance) => put_chances(out, at, chance),
        Opening::From => put_from(out, at, edition, p.from),
    }
}

// A change group's part, its head blank.
fn leg_of(c: Change) -> Leg
    ensures { result ≡ leg_of c }
{
    Leg {
        correction: Correction::None,
        station: blank_station(),
        time: blank_instant(),
        nil: false,
        period: c.period,
        cancelled: false,
        body: c.body,
    }
}

fn put_change(out: &mut [u8], at: usize, edition: Edition, c: Change) -> usize
    ensures { Put out.old at (written at (show_change edition c)) result out.new }
{
    let opened = put_opening(out, at, edition, c.opening, c.period);
    put_part(out, opened, edition, part_of(c.opening), leg_of(c))
}

// The first `count` changes; all where the count is too large.
fn put_each(out: &mut [u8], at: usize, edition: Edition, items: [Change; 16], count: usize) -> usize
    ensures { Put out.old at (written at (show_each edition (take count items))) result out.new }
{
    let mut next = at;
    for change in items.iter().take(count) {
        next = put_change(out, next, edition, *change);
    }
    next
}

// ---- the whole

// The whole report, its "=" too.
fn put_report(out: &mut [u8], t: Taf) -> usize
    ensures { Put out.old 0 (written 0 (groups_of t) ++ (61 ∷ [])) result out.new }
{
    let changes = t.changes;
    let main = put_part(out, 0, t.edition, Part::Main, t.leg);
    let told = put_each(out, main, t.edition, changes.items, changes.count);
    close_report(out, told)
}

// A record that is judged fine: its text, at most 2,048 bytes, is made first, so that its length is known before the lent buffer is touched.
fn write_fine(t: Taf, out: &mut [u8]) -> Result<usize, Refusal>
    requires { judge_of t ≡ Ok tt }
    ensures { (result ≡ answer_by (Ok tt) (canonical_of t) (length out.old)) × (out.new ≡ buffer_by (Ok tt) (canonical_of t) out.old) }
{
    let mut text = [0u8; 2048];
    let end = put_report(&mut text, t);
    deliver(&text[..end], out)
}

// In an edition: a record of the other one is refused.
pub fn write_in(edition: Edition, t: Taf, out: &mut [u8]) -> Result<usize, Refusal>
    ensures { (result ≡ written_in edition t (length out.old)) × (out.new ≡ buffer_in edition t out.old) }
{
    judge(edition, t)?;
    write_fine(t, out)
}

// In the present edition.
pub fn write(t: Taf, out: &mut [u8]) -> Result<usize, Refusal>
    ensures { (result ≡ written_in edition.Present t (length out.old)) × (out.new ≡ buffer_in edition.Present t out.old) }
{
    write_in(Edition::Present, t, out)
}
