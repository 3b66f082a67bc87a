// The moments that periods and change times name, and the periods that name them.
ghost use Rattle.std.specs.Prelude.{◌≡◌, ◌≤◌};
ghost use Rattle.record.specs.Taf.{blank_instant};
ghost use Rattle.taf_times.specs.Times.{two_figures, is_from, dated, period_span, change_begins, change_ends, change_span, time_at, begin_at, end_at, end_after, in_edition, end_in, period_in, change_in};

use crate::kinds::Span;
use crate::moments::{
    day_from, day_in, end_day, end_hour, first_after, first_from, lengthened, moment, period_end,
};
use record::aerodrome::{Edition, Instant, Opening, Period};

// ---- numbers of the record

fn two_figures(n: Option<u32>) -> u32
    ensures { (result ≡ two_figures n) × (result ≤ 99) }
{
    match n {
        Some(n) if n <= 99 => n,
        _ => 0,
    }
}

pub fn is_from(o: Opening) -> bool
    ensures { result ≡ is_from o }
{
    matches!(o, Opening::From)
}

// ---- moments named

// With a day, of the starting month or the next.
#[tactic(auto, unfolding(crate::specs::Times::dated))]
fn dated(days: u32, start: u32, t: Instant) -> u32
    requires { days ≤ 31 }
    ensures { (result ≡ dated days start t) × (result ≤ 200000) }
{
    let day = day_from(days, start, two_figures(t.day));
    moment(day, two_figures(t.hour), two_figures(t.minute))
}

#[tactic(auto, unfolding(crate::specs::Times::period_span))]
pub fn period_span(edition: Edition, days: u32, p: Period) -> Span
    requires { days ≤ 31 }
    ensures { (result ≡ period_span edition days p) × (result.from ≤ 200000) }
{
    let start = two_figures(p.from.day);
    let from = dated(days, start, p.from);
    let to = match edition {
        Edition::Present => dated(days, start, p.to),
        Edition::Of2005 => period_end(from, two_figures(p.to.hour)),
    };
    Span { from, to }
}

fn change_begins(edition: Edition, days: u32, whole: Span, t: Instant) -> u32
    requires { (days ≤ 31) × (whole.from ≤ 200000) }
    ensures { (result ≡ change_begins edition days whole t) × (result ≤ 210000) }
{
    match edition {
        Edition::Present => dated(days, whole.from / 60 / 24, t),
        Edition::Of2005 => first_from(whole.from, two_figures(t.hour), two_figures(t.minute)),
    }
}

fn change_ends(edition: Edition, days: u32, whole: Span, begins: u32, t: Instant) -> u32
    requires { (days ≤ 31) × (begins ≤ 210000) }
    ensures { result ≡ change_ends edition days whole begins t }
{
    match edition {
        Edition::Present => dated(days, whole.from / 60 / 24, t),
        Edition::Of2005 => first_after(begins, two_figures(t.hour)),
    }
}

// Under FM it lasts to the end of the report's period.
#[tactic(auto, unfolding(crate::specs::Times::change_span))]
pub fn change_span(edition: Edition, days: u32, whole: Span, endless: bool, p: Period) -> Span
    requires { (days ≤ 31) × (whole.from ≤ 200000) }
    ensures { result ≡ change_span edition days whole endless p }
{
    let from = change_begins(edition, days, whole, p.from);
    let to = if endless {
        whole.to
    } else {
        change_ends(edition, days, whole, from, p.to)
    };
    Span { from, to }
}

// ---- how moments are named

// A missing number where there is no instant.
fn blank_instant() -> Instant
    ensures { result ≡ blank_instant }
{
    Instant {
        day: None,
        hour: None,
        minute: None,
    }
}

// YYGGgg
fn time_at(days: u32, t: u32) -> Instant
    ensures { result ≡ time_at days t }
{
    Instant {
        day: Some(day_in(days, t / 60 / 24)),
        hour: Some(t / 60 % 24),
        minute: Some(t % 60),
    }
}

// YYGG of a beginning.
fn begin_at(days: u32, t: u32) -> Instant
    ensures { result ≡ begin_at days t }
{
    Instant {
        day: Some(day_in(days, t / 60 / 24)),
        hour: Some(t / 60 % 24),
        minute: None,
    }
}

// YYGG of an end.
fn end_at(days: u32, t: u32) -> Instant
    ensures { result ≡ end_at days t }
{
    Instant {
        day: Some(end_day(days, t)),
        hour: Some(end_hour(t)),
        minute: None,
    }
}

// G2
fn end_after(w: Span) -> Instant
    requires { w.from ≤ 200000 }
    ensures { result ≡ end_after w }
{
    Instant {
        day: None,
        hour: Some(lengthened(w.from, w.to, end_hour(w.to))),
        minute: None,
    }
}

// A change time has a day in the present edition only.
fn in_edition(edition: Edition, t: Instant) -> Instant
    ensures { result ≡ in_edition edition t }
{
    match edition {
        Edition::Present => t,
        Edition::Of2005 => Instant { day: None, ..t },
    }
}

fn end_in(edition: Edition, days: u32, w: Span) -> Instant
    requires { w.from ≤ 200000 }
    ensures { result ≡ end_in edition days w }
{
    match edition {
        Edition::Present => end_at(days, w.to),
        Edition::Of2005 => end_after(w),
    }
}

#[tactic(auto, unfolding(crate::specs::Times::period_in))]
pub fn period_in(edition: Edition, days: u32, w: Span) -> Period
    requires { w.from ≤ 200000 }
    ensures { result ≡ period_in edition days w }
{
    Period {
        from: begin_at(days, w.from),
        to: end_in(edition, days, w),
    }
}

#[tactic(auto, unfolding(crate::specs::Times::change_in))]
pub fn change_in(edition: Edition, days: u32, endless: bool, s: Span) -> Period
    ensures { result ≡ change_in edition days endless s }
{
    if endless {
        Period {
            from: in_edition(edition, time_at(days, s.from)),
            to: blank_instant(),
        }
    } else {
        Period {
            from: in_edition(edition, begin_at(days, s.from)),
            to: in_edition(edition, end_at(days, s.to)),
        }
    }
}
