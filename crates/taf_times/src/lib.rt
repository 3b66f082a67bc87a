// The times of a TAF, moved to the other edition.
#![tactic(auto)]

pub mod kinds;
mod moments;
mod times;

ghost use Rattle.std.specs.Prelude.{◌≡◌, ◌++◌, map, ◌≤◌, take, drop, Err};
ghost use Rattle.figures.specs.Figures.{every};
ghost use Rattle.record.specs.declared.aerodrome.Change.{Change};
ghost use Rattle.record.specs.Taf.{blank_taf};
ghost use Rattle.taf_times.specs.Move.{days_in, month_fits, whole_fits, span_fits, change_of, whole_of, times_fit, judge_times, moved_leg, moved_change, moved_changes, times_in, moved_by, times_moved};

use crate::kinds::{MovedTaf, Span};
use crate::times::{change_in, change_span, is_from, period_in, period_span};
use record::aerodrome::{Change, Changes, Edition, Leg, Period, Taf};
use record::blank_aerodrome::blank_taf;
use record::values::is_missing_or_between;
use text::kinds::Refusal;

// ---- the month

fn days_in(days: u32, p: Period) -> bool
    ensures { result ≡ days_in days p }
{
    is_missing_or_between(p.from.day, 1, days) & is_missing_or_between(p.to.day, 1, days)
}

// Those of the changes that count.
fn changes_in(days: u32, items: [Change; 16], count: usize) -> bool
    ensures { result ≡ every (λ (c : Change). days_in days c.period) (take count items) }
{
    items.iter().take(count).all(|c| days_in(days, c.period))
}

#[tactic(auto, unfolding(crate::specs::Move::month_fits))]
fn month_fits(days: u32, t: Taf) -> bool
    ensures { result ≡ month_fits days t }
{
    let length = (28 <= days) & (days <= 31);
    length & days_in(days, t.leg.period) & changes_in(days, t.changes.items, t.changes.count)
}

// ---- times that fit one another

fn whole_fits(w: Span, count: usize) -> bool
    requires { w.from ≤ 200000 }
    ensures { result ≡ whole_fits w count }
{
    (w.from < w.to) & (w.to <= w.from + 2880) & ((count == 0) | (w.to <= w.from + 1440))
}

fn span_fits(w: Span, s: Span) -> bool
    ensures { result ≡ span_fits w s }
{
    (s.from < s.to) & (w.from <= s.from) & (s.from < w.to) & (s.to <= w.to)
}

fn change_of(edition: Edition, days: u32, w: Span, c: Change) -> Span
    requires { (days ≤ 31) × (w.from ≤ 200000) }
    ensures { result ≡ change_of edition days w c }
{
    change_span(edition, days, w, is_from(c.opening), c.period)
}

fn changes_fit(edition: Edition, days: u32, w: Span, items: [Change; 16], count: usize) -> bool
    requires { (days ≤ 31) × (w.from ≤ 200000) }
    ensures { result ≡ every (λ (c : Change). span_fits w (change_of edition days w c)) (take count items) }
{
    items
        .iter()
        .take(count)
        .all(|c| span_fits(w, change_of(edition, days, w, *c)))
}

#[tactic(auto, unfolding(crate::specs::Move::times_fit))]
fn times_fit(days: u32, t: Taf) -> bool
    requires { days ≤ 31 }
    ensures { result ≡ times_fit days t }
{
    let w = period_span(t.edition, days, t.leg.period);
    let fits = changes_fit(t.edition, days, w, t.changes.items, t.changes.count);
    t.leg.nil | (whole_fits(w, t.changes.count) & fits)
}

// ---- the same moments in the other edition

#[tactic(auto, unfolding(crate::specs::Move::moved_leg))]
fn moved_leg(to: Edition, days: u32, t: Taf) -> Leg
    requires { days ≤ 31 }
    ensures { result ≡ moved_leg to days t }
{
    if t.leg.nil {
        return t.leg;
    }
    Leg {
        period: period_in(to, days, period_span(t.edition, days, t.leg.period)),
        ..t.leg
    }
}

fn moved_change(from: Edition, to: Edition, days: u32, w: Span, c: Change) -> Change
    requires { (days ≤ 31) × (w.from ≤ 200000) }
    ensures { result ≡ moved_change from to days w c }
{
    Change {
        period: change_in(to, days, is_from(c.opening), change_of(from, days, w, c)),
        ..c
    }
}

// Those that count; the others stay.
fn moved_each(
    from: Edition,
    to: Edition,
    days: u32,
    w: Span,
    items: [Change; 16],
    count: usize,
) -> [Change; 16]
    requires { (days ≤ 31) × (w.from ≤ 200000) }
    ensures { result ≡ map (moved_change from to days w) (take count items) ++ drop count items }
{
    let mut moved = items;
    // By index: what a zipped `iter_mut` leaves in the slots is not known to a proof.
    for i in 0..count.min(16) {
        moved[i] = moved_change(from, to, days, w, items[i]);
    }
    moved
}

#[tactic(auto, unfolding(crate::specs::Move::times_in, crate::specs::Move::moved_changes))]
fn times_in(to: Edition, days: u32, t: Taf) -> Taf
    requires { days ≤ 31 }
    ensures { result ≡ times_in to days t }
{
    let count = t.changes.count;
    let w = period_span(t.edition, days, t.leg.period);
    let items = moved_each(t.edition, to, days, w, t.changes.items, count);
    Taf {
        edition: to,
        leg: moved_leg(to, days, t),
        changes: Changes { items, count },
    }
}

// A TAF that is not moved.
pub fn refuse(refusal: Refusal) -> MovedTaf
    ensures { result ≡ moved_by (Err refusal) blank_taf }
{
    MovedTaf {
        judged: Err(refusal),
        forecast: blank_taf(),
    }
}

// The TAF with its times in this edition, so many days being in the starting month; or 11 where the month or a day does not fit, 15 where the times do not.
// That it is a TAF of the other edition that the writer takes is judged above this.
#[tactic(auto, unfolding(crate::specs::Move::times_moved, crate::specs::Move::judge_times))]
pub fn move_times(to: Edition, days: u32, t: Taf) -> MovedTaf
    ensures { result ≡ times_moved to days t }
{
    if !month_fits(days, t) {
        return refuse(Refusal::Value);
    }
    if !times_fit(days, t) {
        return refuse(Refusal::Times);
    }
    MovedTaf {
        judged: Ok(()),
        forecast: times_in(to, days, t),
    }
}
