// What the writer judges of a TAF before it writes anything: that a NIL report has nothing after its time and a cancelled one nothing after its
// period, then each group in written order.
ghost use Rattle.std.specs.Prelude.{◌≡◌, true, cond, ◌≤◌, take, leb, Ok};
ghost use Rattle.text.specs.Judge.{judge, and_then};
ghost use Rattle.record.specs.Missing.{between};
ghost use Rattle.taf_row.specs.declared.kinds.Part.TheVariants as part;
ghost use Rattle.taf_row.specs.Row.{own_form};
ghost use Rattle.taf.specs.Write.{judge_part, is_hour_of, is_hour_alone, period_fits, from_fits, opening_fits, judge_change, judge_each, judge_changes, foreign_blank, judge_of, judge_in};

use aerodrome_groups::judge::{instant_fits, judge_station, judge_time};
use body::judge::{has_element, judge_body};
use record::aerodrome::{Body, Change, Changes, Edition, Instant, Opening, Period, Taf};
use record::values::{is_between, is_up_to};
use taf::word::part_of;
use taf_row::kinds::{Form, Part};
use taf_row::row::{change_form, is_main, is_whole, own_form};
use text::judge::judge as judge_pair;
use text::kinds::Refusal;

// ---- a part

// Its body, of which a change group needs one element.
#[tactic(auto, unfolding(taf::specs::Write::judge_part))]
fn judge_part(w: Part, b: Body) -> Result<(), Refusal>
    ensures { result ≡ judge_part w b }
{
    let main = is_main(w);
    judge_body(true, is_whole(w), !main, false, b)?;
    judge_pair(main | has_element(b), true)
}

// ---- periods and what opens a change

// A day and an hour up to the last, without minutes.
fn is_hour(t: Instant, last: u32) -> bool
    ensures { result ≡ is_hour_of (λ h. leb h last) t }
{
    is_between(t.day, 1, 31) & is_up_to(t.hour, last) & t.minute.is_none()
}

// An hour from the first up to the last, without day and minutes.
fn is_hour_alone(t: Instant, first: u32, last: u32) -> bool
    ensures { result ≡ is_hour_alone (between first last) t }
{
    t.day.is_none() & is_between(t.hour, first, last) & t.minute.is_none()
}

fn period_fits(form: Form, p: Period) -> bool
    ensures { result ≡ period_fits form p }
{
    match form {
        Form::BothDays => is_hour(p.from, 23) & is_hour(p.to, 24),
        Form::FirstDay => {
            is_hour(p.from, 23) & (is_hour_alone(p.to, 1, 24) | is_hour_alone(p.to, 51, 74))
        }
        Form::NoDay => is_hour_alone(p.from, 0, 23) & is_hour_alone(p.to, 1, 24),
    }
}

// The time of FMYYGGgg or FMGGgg.
fn from_fits(edition: Edition, t: Instant) -> bool
    ensures { result ≡ from_fits edition t }
{
    match edition {
        Edition::Present => instant_fits(t),
        Edition::Of2005 => t.day.is_none() & is_up_to(t.hour, 23) & is_up_to(t.minute, 59),
    }
}

fn opening_fits(edition: Edition, o: Opening, p: Period) -> bool
    ensures { result ≡ opening_fits edition o p }
{
    let dated = period_fits(change_form(edition), p);
    match o {
        Opening::None => false,
        Opening::Becoming => dated,
        Opening::Temporary => dated,
        Opening::Probable(n) => ((n == 30) | (n == 40)) & dated,
        Opening::ProbablyTemporary(n) => ((n == 30) | (n == 40)) & dated,
        Opening::From => from_fits(edition, p.from) & p.to.is_blank(),
    }
}

// ---- changes

#[tactic(auto, unfolding(taf::specs::Write::judge_change))]
fn judge_change(edition: Edition, c: Change) -> Result<(), Refusal>
    ensures { result ≡ judge_change edition c }
{
    judge_pair(opening_fits(edition, c.opening, c.period), true)?;
    judge_part(part_of(c.opening), c.body)
}

// The first `count`.
fn judge_each(edition: Edition, items: &[Change], count: usize) -> Result<(), Refusal>
    ensures { result ≡ judge_each edition (take count items.now) }
{
    for &change in items.iter().take(count) {
        judge_change(edition, change)?;
    }
    Ok(())
}

#[tactic(auto, unfolding(taf::specs::Write::judge_changes))]
fn judge_changes(edition: Edition, cs: Changes) -> Result<(), Refusal>
    ensures { result ≡ judge_changes edition cs }
{
    if cs.count <= 16 {
        judge_pair(cs.is_blank_from(cs.count), true)?;
        judge_each(edition, &cs.items, cs.count)
    } else {
        judge_pair(false, true)
    }
}

// ---- the whole

// A NIL report has nothing after its time, a cancelled one nothing after its period.
#[tactic(auto, unfolding(taf::specs::Write::foreign_blank))]
fn foreign_blank(t: Taf) -> bool
    ensures { result ≡ foreign_blank t }
{
    let leg = t.leg;
    let timed = !leg.nil | (leg.period.is_blank() & !leg.cancelled);
    timed & (!(leg.nil | leg.cancelled) | (leg.body.is_blank() & t.changes.is_blank()))
}

// A record by its own edition: a NIL report has nothing more to judge after its time, a cancelled one nothing after its period.
#[tactic(auto, unfolding(taf::specs::Write::judge_of))]
fn judge_record(t: Taf) -> Result<(), Refusal>
    ensures { result ≡ judge_of t }
{
    judge_pair(foreign_blank(t), true)?;
    judge_station(t.leg.station)?;
    judge_time(t.leg.time)?;
    if t.leg.nil {
        return Ok(());
    }
    judge_pair(period_fits(own_form(t.edition), t.leg.period), true)?;
    if t.leg.cancelled {
        return Ok(());
    }
    judge_part(Part::Main, t.leg.body)?;
    judge_changes(t.edition, t.changes)
}

// A record of the other edition is refused before anything else of it is judged.
#[tactic(auto, unfolding(taf::specs::Write::judge_in))]
pub fn judge(edition: Edition, t: Taf) -> Result<(), Refusal>
    ensures { result ≡ judge_in edition t }
{
    judge_pair(edition.is_same(t.edition), true)?;
    judge_record(t)
}
