// How the runway states are written over a lent buffer, each with what parts it from the group before it. Every function answers the position after its
// text. What a buffer has no room for is not written, so that a caller may judge the room afterwards.
ghost use Rattle.std.specs.Prelude.{◌≡◌, cond, ◌∷◌, [], ◌++◌, map, take};
ghost use Rattle.figures.specs.Put.{Put};
ghost use Rattle.text.specs.Groups.{written};
ghost use Rattle.runway_states.specs.State.{snoclo_shape, depth_field, show_condition, show_state, show_states};

use aerodrome_groups::write::{field_of, put_two};
use figures::kinds::Field;
use figures::put::{put_field, put_text};
use record::aerodrome::{Condition, Depth, RunwayState, RunwayStates};
use scales::depth::depth_figure;
use text::write::{open_group, put_if};

fn depth_field(depth: Depth) -> Field
    ensures { result ≡ depth_field depth }
{
    match depth {
        Depth::Missing => Field::Missing,
        Depth::Closed => Field::Number(99),
        Depth::Millimetres(m) => {
            match depth_figure(m) {
                Some(figure) => Field::Number(figure),
                None => Field::Other,
            }
        }
    }
}

fn put_condition(out: &mut [u8], at: usize, c: Condition) -> usize
    ensures { Put out.old at (show_condition c) result out.new }
{
    match c {
        Condition::Cleared => put_text(out, at, b"CLRD//"),
        Condition::Covered {
            deposit,
            extent,
            depth,
            braking,
        } => {
            let lain = put_field(out, at, 1, field_of(deposit));
            let covered = put_field(out, lain, 1, field_of(extent));
            let deep = put_field(out, covered, 2, depth_field(depth));
            put_two(out, deep, braking)
        }
    }
}

fn put_state(out: &mut [u8], at: usize, s: RunwayState) -> usize
    ensures { Put out.old at (written at (show_state s ∷ [])) result out.new }
{
    let runway = s.runway;
    let condition = s.condition;
    let opened = open_group(out, at);
    let named = put_two(out, opened, runway);
    put_condition(out, named, condition)
}

// The first `count` slots; all where the count is too large.
// A loop for each kind of item: `text` cannot have a trait that the items of `record` take up here, and what a closure writes into the buffer is not known after it.
fn put_each(out: &mut [u8], at: usize, items: [RunwayState; 4], count: usize) -> usize
    ensures { Put out.old at (written at (map show_state (take count items))) result out.new }
{
    let mut next = at;
    for s in items.iter().take(count) {
        next = put_state(out, next, *s);
    }
    next
}

// The states, or SNOCLO.
pub fn put_states(out: &mut [u8], at: usize, ss: RunwayStates) -> usize
    ensures { Put out.old at (written at (show_states ss ++ cond ss.snoclo (snoclo_shape ∷ []) [])) result out.new }
{
    let items = ss.items;
    let count = ss.count;
    let told = put_each(out, at, items, count);
    put_if(out, told, ss.snoclo, b"SNOCLO")
}
