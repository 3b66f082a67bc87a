// What the writer judges of the runway states before it writes anything: the count and the slots past it, the range of each part of a state, refusal 11,
// and that no state stands beside SNOCLO, refusal 7.
ghost use Rattle.std.specs.Prelude.{◌≡◌, ◌≤◌, take};
ghost use Rattle.runway_states.specs.State.{depth_fits, condition_fits, state_fits, judge_each_state, judge_states};

use crate::tables::Table;
use record::aerodrome::{Condition, Depth, RunwayState, RunwayStates};
use text::judge::judge;
use text::kinds::Refusal;

fn depth_fits(depth: Depth) -> bool
    ensures { result ≡ depth_fits depth }
{
    match depth {
        Depth::Missing => true,
        Depth::Closed => true,
        Depth::Millimetres(m) => m <= 99999,
    }
}

fn condition_fits(c: Condition) -> bool
    ensures { result ≡ condition_fits c }
{
    match c {
        Condition::Cleared => true,
        Condition::Covered {
            deposit,
            extent,
            depth,
            braking,
        } => {
            let lies = Table::Deposits;
            let covers = Table::Extents;
            let brakes = Table::Brakings;
            let seen = lies.has_optional(deposit) & covers.has_optional(extent);
            seen & depth_fits(depth) & brakes.has_optional(braking)
        }
    }
}

fn state_fits(s: RunwayState) -> bool
    ensures { result ≡ state_fits s }
{
    let runway = s.runway;
    let condition = s.condition;
    let runways = Table::Runways;
    runways.has_present(runway) & condition_fits(condition)
}

// The first n states.
fn judge_each(ss: RunwayStates, n: usize) -> Result<(), Refusal>
    requires { n ≤ 4 }
    ensures { result ≡ judge_each_state ss.snoclo (take n ss.items) }
{
    for s in ss.items.iter().take(n) {
        judge(state_fits(*s), !ss.snoclo)?;
    }
    Ok(())
}

#[tactic(auto, unfolding(crate::specs::State::judge_states))]
pub fn judge_states(ss: RunwayStates) -> Result<(), Refusal>
    ensures { result ≡ judge_states ss }
{
    let n = ss.count;
    if n <= 4 {
        judge(ss.is_blank_from(n), true)?;
        judge_each(ss, n)
    } else {
        judge(false, true)
    }
}
