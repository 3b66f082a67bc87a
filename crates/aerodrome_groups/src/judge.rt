// What the writer judges of each group before it writes anything: its ranges, refusal 11. None of them can disagree with itself.
ghost use Rattle.std.specs.Prelude.{◌≡◌, false, ◌&&◌, ◌≤◌, take};
ghost use Rattle.elements.specs.Judge.{metres_fit};
ghost use Rattle.aerodrome_groups.specs.Head.{judge_station, instant_fits, judge_time};
ghost use Rattle.aerodrome_groups.specs.Runway.{is_runway, judge_each_runway, judge_runways};
ghost use Rattle.aerodrome_groups.specs.Temperatures.{tenths_fit, judge_temperatures, judge_qnh};

use elements::judge::metres_fit;
use figures::is_letter;
use record::aerodrome::{Instant, Qnh, Runway, Runways, Station, Temperatures};
use record::values::{is_between, is_missing_or_between, is_up_to};
use text::judge::judge;
use text::kinds::Refusal;

#[tactic(auto, using(crate::proofs::Judgings::four_letters), unfolding(crate::specs::Head::judge_station))]
pub fn judge_station(s: Station) -> Result<(), Refusal>
    ensures { result ≡ judge_station s }
{
    let letters = s.letters;
    let first = is_letter(letters[0]) & is_letter(letters[1]);
    let last = is_letter(letters[2]) & is_letter(letters[3]);
    judge(first & last, true)
}

// A day, an hour and a minute are there, each in its range.
pub fn instant_fits(t: Instant) -> bool
    ensures { result ≡ instant_fits t }
{
    is_between(t.day, 1, 31) & is_up_to(t.hour, 23) & is_up_to(t.minute, 59)
}

#[tactic(auto, unfolding(crate::specs::Head::judge_time))]
pub fn judge_time(t: Instant) -> Result<(), Refusal>
    ensures { result ≡ judge_time t }
{
    judge(instant_fits(t), true)
}

// ---- runway visual ranges

fn runway_fits(w: Runway) -> bool
    ensures { result ≡ (is_runway w.number && metres_fit false w.range) }
{
    is_between(w.number, 1, 36) & metres_fit(false, w.range)
}

// The first `count` slots.
fn judge_each(items: [Runway; 4], count: usize) -> Result<(), Refusal>
    requires { count ≤ 4 }
    ensures { result ≡ judge_each_runway (take count items) }
{
    judge(items.iter().take(count).all(|w| runway_fits(*w)), true)
}

#[tactic(auto, unfolding(crate::specs::Runway::judge_runways))]
pub fn judge_runways(rs: Runways) -> Result<(), Refusal>
    ensures { result ≡ judge_runways rs }
{
    if rs.count <= 4 {
        judge(rs.is_blank_from(rs.count), true)?;
        judge_each(rs.items, rs.count)
    } else {
        judge(false, true)
    }
}

// ---- temperatures and Q

fn tenths_fit(t: Option<i32>) -> bool
    ensures { result ≡ tenths_fit t }
{
    match t {
        None => true,
        Some(t) => (-995 <= t) & (t <= 994),
    }
}

#[tactic(auto, unfolding(crate::specs::Temperatures::judge_temperatures))]
pub fn judge_temperatures(t: Temperatures) -> Result<(), Refusal>
    ensures { result ≡ judge_temperatures t }
{
    judge(tenths_fit(t.air) & tenths_fit(t.dew), true)
}

#[tactic(auto, unfolding(crate::specs::Temperatures::judge_qnh))]
pub fn judge_qnh(q: Qnh) -> Result<(), Refusal>
    ensures { result ≡ judge_qnh q }
{
    judge(is_missing_or_between(q.is, 0, 99999), true)
}
