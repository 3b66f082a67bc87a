// What the writer judges of weather before it writes anything: first that its codes are the table's and rightly joined (refusal 11), then its agreement
// (refusal 7).
ghost use Rattle.std.specs.Prelude.{◌≡◌, cond, [], Ok};
ghost use Rattle.elements.specs.Weather.{gapless, listed, under, is_described, intensity_fits, phenomena_fit, judge_weather, judge_recent, three_fit, judge_weathers};
ghost use Rattle.weather_write.specs.Three.{judge_three};

use crate::write::put_code;
use record::aerodrome::{Code, Intensity, Phenomena, Weather, Weathers};
use text::judge::judge;
use text::kinds::Refusal;
use weather::codes::{intensity_fits, is_descriptor};
use weather::read::{has_unknown, is_plain};

// No code after one that is not there.
fn has_no_gap(a: Option<Code>, b: Option<Code>, c: Option<Code>) -> bool
    ensures { result ≡ gapless a b c }
{
    (a.is_some() | (b.is_none() & c.is_none())) & (b.is_some() | c.is_none())
}

fn is_described(d: Option<Code>) -> bool
    ensures { result ≡ is_described d }
{
    match d {
        None => true,
        Some(Code { first, second }) => is_descriptor(first, second),
    }
}

// The codes are joined as they may be.
fn codes_fit(
    i: Intensity,
    d: Option<Code>,
    a: Option<Code>,
    b: Option<Code>,
    c: Option<Code>,
) -> bool
    ensures { result ≡ intensity_fits i (under d (listed a (listed b (listed c [])))) }
{
    let mut letters = [0u8; 6];
    let first = put_code(&mut letters, 0, a);
    let second = put_code(&mut letters, first, b);
    let third = put_code(&mut letters, second, c);
    intensity_fits(i, d, &letters[..third])
}

fn phenomena_fit(p: Option<Phenomena>) -> bool
    ensures { result ≡ phenomena_fit p }
{
    match p {
        None => false,
        Some(p) => {
            is_described(p.descriptor)
                & has_no_gap(p.first, p.second, p.third)
                & codes_fit(p.intensity, p.descriptor, p.first, p.second, p.third)
        }
    }
}

// Beside CAVOK or NSW no weather stands.
#[tactic(auto, unfolding(elements::specs::Weather::judge_weather))]
pub fn judge_weather(
    forecast: bool,
    automatic: bool,
    beside: bool,
    w: Weather,
) -> Result<(), Refusal>
    ensures { result ≡ judge_weather forecast automatic beside w }
{
    let is = w.is;
    judge(
        phenomena_fit(is) | (!forecast & is.is_none()),
        !beside & (automatic | !has_unknown(is)),
    )
}

#[tactic(auto, unfolding(elements::specs::Weather::judge_recent))]
pub fn judge_recent(automatic: bool, w: Weather) -> Result<(), Refusal>
    ensures { result ≡ judge_recent automatic w }
{
    let is = w.is;
    judge(
        phenomena_fit(is) & is_plain(is),
        automatic | !has_unknown(is),
    )
}

// The count, and what stands past it.
pub fn count_fits(ws: Weathers) -> bool
    ensures { result ≡ three_fit ws }
{
    let count = ws.count;
    (count <= 3) & ws.is_blank_from(count)
}

// A judgement, where there is something to judge.
fn judge_where(stands: bool, j: Result<(), Refusal>) -> Result<(), Refusal>
    ensures { result ≡ cond stands j (Ok tt) }
{
    if stands { j } else { Ok(()) }
}

// Three judgements, the first `count` of them.
fn judge_three(
    ws: Weathers,
    a: Result<(), Refusal>,
    b: Result<(), Refusal>,
    c: Result<(), Refusal>,
) -> Result<(), Refusal>
    ensures { result ≡ judge_three ws a b c }
{
    let count = ws.count;
    judge(count_fits(ws), true)?;
    judge_where(0 < count, a)?;
    judge_where(1 < count, b)?;
    judge_where(2 < count, c)
}

#[tactic(auto, using(crate::proofs::Triples::each_judged), unfolding(elements::specs::Weather::judge_weathers))]
pub fn judge_weathers(
    forecast: bool,
    automatic: bool,
    beside: bool,
    ws: Weathers,
) -> Result<(), Refusal>
    ensures { result ≡ judge_weathers (judge_weather forecast automatic beside) ws }
{
    let items = ws.items;
    judge_three(
        ws,
        judge_weather(forecast, automatic, beside, items[0]),
        judge_weather(forecast, automatic, beside, items[1]),
        judge_weather(forecast, automatic, beside, items[2]),
    )
}

#[tactic(auto, using(crate::proofs::Triples::each_judged), unfolding(elements::specs::Weather::judge_weathers))]
pub fn judge_recents(automatic: bool, ws: Weathers) -> Result<(), Refusal>
    ensures { result ≡ judge_weathers (judge_recent automatic) ws }
{
    let items = ws.items;
    judge_three(
        ws,
        judge_recent(automatic, items[0]),
        judge_recent(automatic, items[1]),
        judge_recent(automatic, items[2]),
    )
}
