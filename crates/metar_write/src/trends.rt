// The trend of a METAR or SPECI: judged, and written.
ghost use Rattle.std.specs.Prelude.{◌≡◌, ◌≤◌, take};
ghost use Rattle.figures.specs.Put.{Put};
ghost use Rattle.text.specs.Groups.{written};
ghost use Rattle.trend.specs.Write.{judge_change, judge_each, judge_trend, show_word, show_change, show_each, show_trend};

use body::judge::{has_element, judge_body};
use body::write::put_body;
use record::aerodrome::{Tendency, Trend, TrendChange};
use text::judge::judge as judge_pair;
use text::kinds::Refusal;
use text::write::{put_group, put_if};
use trend_row::times::{hours_fit, put_times};

// ---- judging

// Its word, which NOSIG must not stand beside, its times, its body, and that it has an element.
#[tactic(auto, unfolding(trend::specs::Write::judge_change))]
fn judge_change(nosig: bool, c: TrendChange) -> Result<(), Refusal>
    ensures { result ≡ judge_change nosig c }
{
    judge_pair(!c.tendency.is_none(), !nosig)?;
    judge_pair(hours_fit(c.times.is), true)?;
    judge_body(true, false, true, false, c.body)?;
    judge_pair(has_element(c.body), true)
}

// The first n changes.
fn judge_each(t: Trend, n: usize) -> Result<(), Refusal>
    requires { n ≤ 3 }
    ensures { result ≡ judge_each t.nosig (take n t.items) }
{
    for &change in t.items.iter().take(n) {
        judge_change(t.nosig, change)?;
    }
    Ok(())
}

#[tactic(auto, unfolding(trend::specs::Write::judge_trend))]
pub fn judge_trend(t: Trend) -> Result<(), Refusal>
    ensures { result ≡ judge_trend t }
{
    let n = t.count;
    if n <= 3 {
        judge_pair(t.is_blank_from(n), true)?;
        judge_each(t, n)
    } else {
        judge_pair(false, true)
    }
}

// ---- writing

fn put_word(out: &mut [u8], at: usize, tendency: Tendency) -> usize
    ensures { Put out.old at (written at (show_word tendency)) result out.new }
{
    match tendency {
        Tendency::None => at,
        Tendency::Becoming => put_group(out, at, b"BECMG"),
        Tendency::Temporary => put_group(out, at, b"TEMPO"),
    }
}

fn put_change(out: &mut [u8], at: usize, c: TrendChange) -> usize
    ensures { Put out.old at (written at (show_change c)) result out.new }
{
    let opened = put_word(out, at, c.tendency);
    let timed = put_times(out, opened, c.times);
    put_body(out, timed, c.body)
}

// The first n changes.
fn put_each(out: &mut [u8], at: usize, t: Trend, n: usize) -> usize
    requires { n ≤ 3 }
    ensures { Put out.old at (written at (show_each (take n t.items))) result out.new }
{
    let mut next = at;
    for &change in t.items.iter().take(n) {
        next = put_change(out, next, change);
    }
    next
}

// NOSIG, or the changes; past the third there is none.
pub fn put_trend(out: &mut [u8], at: usize, t: Trend) -> usize
    requires { t.count ≤ 3 }
    ensures { Put out.old at (written at (show_trend t)) result out.new }
{
    let alone = put_if(out, at, t.nosig, b"NOSIG");
    put_each(out, alone, t, t.count)
}
