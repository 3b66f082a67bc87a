// What a group of runway state says. A caller holds the group to its shape first; what has another shape is refused as a wrong figure.
ghost use Rattle.std.specs.Prelude.{◌≡◌, true, cond, eqb};
ghost use Rattle.shapes.specs.Pattern.{has_any};
ghost use Rattle.text.specs.declared.kinds.Refusal.TheVariants as refusal;
ghost use Rattle.elements.specs.declared.kinds.Said.TheVariants as said;
ghost use Rattle.elements.specs.Answers.{as_state};
ghost use Rattle.elements.specs.Parts.{disagrees, then};
ghost use Rattle.runway_states.specs.State.{state_shapes, number_in, depth_by, read_depth, are_listed, read_condition, read_state, with_state, with_snoclo};

use crate::tables::Table;
use elements::kinds::Said;
use figures::field;
use figures::kinds::Field;
use record::aerodrome::{Condition, Depth, RunwayState, RunwayStates};
use scales::depth::depth_reading;
use shapes::has_pattern;
use text::kinds::Refusal;

#[tactic(auto, unfolding(shapes::specs::Pattern::has_any))]
pub fn has_state(g: &[u8]) -> bool
    ensures { result ≡ has_any state_shapes g.now }
{
    let figures = has_pattern(g, b"########");
    let cleared = has_pattern(g, b"##CLRD//");
    figures | cleared
}

fn number_in(f: Field) -> Option<u32>
    ensures { result ≡ number_in f }
{
    match f {
        Field::Number(n) => Some(n),
        Field::Missing | Field::Mixed | Field::Other => None,
    }
}

fn depth_by(n: u32) -> Result<Depth, Refusal>
    ensures { result ≡ depth_by n }
{
    if n == 99 {
        return Ok(Depth::Closed);
    }
    let millimetres = depth_reading(n).ok_or(Refusal::Figure)?;
    Ok(Depth::Millimetres(millimetres))
}

fn read_depth(f: Field) -> Result<Depth, Refusal>
    ensures { result ≡ read_depth f }
{
    match f {
        Field::Number(n) => depth_by(n),
        Field::Missing => Ok(Depth::Missing),
        Field::Mixed | Field::Other => Err(Refusal::Figure),
    }
}

fn are_listed(deposit: Field, extent: Field, braking: Field) -> bool
    ensures { result ≡ are_listed deposit extent braking }
{
    let lies = Table::Deposits;
    let covers = Table::Extents;
    let brakes = Table::Brakings;
    lies.holds(deposit, true) & covers.holds(extent, true) & brakes.holds(braking, true)
}

// What follows RR: CLRD//, or the deposit, the extent, the depth and the braking.
fn read_condition(g: &[u8]) -> Result<Condition, Refusal>
    ensures { result ≡ read_condition g.now }
{
    if has_pattern(g, b"##CLRD//") {
        return Ok(Condition::Cleared);
    }
    let deposit = field(g, 2, 1);
    let extent = field(g, 3, 1);
    let depth = field(g, 4, 2);
    let braking = field(g, 6, 2);
    if are_listed(deposit, extent, braking) {
        Ok(Condition::Covered {
            deposit: number_in(deposit),
            extent: number_in(extent),
            depth: read_depth(depth)?,
            braking: number_in(braking),
        })
    } else {
        Err(Refusal::Figure)
    }
}

#[tactic(auto, unfolding(crate::specs::State::read_state))]
fn state_of(g: &[u8]) -> Result<RunwayState, Refusal>
    ensures { result ≡ read_state g.now }
{
    let runways = Table::Runways;
    let runway = field(g, 0, 2);
    if runways.holds(runway, false) {
        let condition = read_condition(g)?;
        Ok(RunwayState {
            runway: number_in(runway),
            condition,
        })
    } else {
        Err(Refusal::Figure)
    }
}

pub fn read_state(g: &[u8]) -> Said
    ensures { result ≡ as_state (read_state g.now) }
{
    match state_of(g) {
        Ok(state) => Said::State(state),
        Err(refusal) => Said::Refused(refusal),
    }
}

// The same after SNOCLO, beside which no state may stand.
pub fn read_beside(g: &[u8]) -> Said
    ensures { result ≡ as_state (then (read_state g.now) (λ x. disagrees)) }
{
    match state_of(g) {
        Ok(_) => Said::Refused(Refusal::Disagreement),
        Err(refusal) => Said::Refused(refusal),
    }
}

// SNOCLO, beside so many states.
pub fn say_snoclo(states: usize) -> Said
    ensures { result ≡ cond (eqb states 0) said.Snoclo (said.Refused refusal.Disagreement) }
{
    if states == 0 {
        Said::Snoclo
    } else {
        Said::Refused(Refusal::Disagreement)
    }
}

// One more state where k stand; past the fourth there is no room.
pub fn add_state(k: usize, ss: RunwayStates, x: RunwayState) -> RunwayStates
    ensures { result ≡ with_state k ss x }
{
    if k < 4 {
        let mut items = ss.items;
        items[k] = x;
        RunwayStates {
            items,
            count: k + 1,
            snoclo: ss.snoclo,
        }
    } else {
        ss
    }
}

pub fn close(ss: RunwayStates) -> RunwayStates
    ensures { result ≡ with_snoclo true ss }
{
    let mut closed = ss;
    closed.snoclo = true;
    closed
}
