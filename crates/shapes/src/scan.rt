// Scanning a group by code made for its shape: the alternatives of a part stand at the calls as constants, each with what to take where the group has
// not got it, so that the compiler turns them into comparisons. A position past the group's end says that a part has none of its alternatives, and
// stays past it.
ghost use Rattle.std.specs.Prelude.{◌≡◌, cond, ◌∷◌, [], ◌+◌, length, drop};
ghost use Rattle.figures.specs.Figures.{field_at};
ghost use Rattle.figures.specs.declared.kinds.Field.TheVariants.{Other};
ghost use Rattle.shapes.specs.Shape.{begins, blank_value, step_to, scan_end, padded};

use crate::kinds::{Scan, Step, Value};
use figures::kinds::Field;

// The group begins with bytes that fit the pattern.
fn begins_with(g: &[u8], pattern: &[u8]) -> bool
    ensures { result ≡ begins pattern.now g.now }
{
    let mut rest = g;
    for &p in pattern {
        let Some((&b, tail)) = rest.split_first() else {
            return false;
        };
        if !crate::fits_at(p, b) {
            return false;
        }
        rest = tail;
    }
    true
}

// What stands from a position on; nothing past the end.
pub fn rest_from(g: &[u8], at: usize) -> &[u8]
    ensures { result.now ≡ drop at g.now }
{
    if at < g.len() {
        return &g[at..];
    }
    let end = g.len();
    &g[end..]
}

// None of a part's alternatives is there.
pub fn absent(g: &[u8]) -> Step
    ensures { result ≡ step_to 0 Other (length g.now + 1) }
{
    nothing(0, g.len() + 1)
}

// A part's last alternative, number `which`, is nothing, which is always there.
pub fn nothing(which: usize, at: usize) -> Step
    ensures { result ≡ step_to which Other at }
{
    let field = Field::Other;
    let value = Value { which, field };
    Step { value, past: at }
}

// Alternative number `which`, a word, if the group has it there.
pub fn word_or(g: &[u8], at: usize, which: usize, a: &[u8], otherwise: Step) -> Step
    ensures { result ≡ cond (begins a.now (drop at g.now)) (step_to which Other (at + length a.now)) otherwise }
{
    if begins_with(rest_from(g, at), a) {
        nothing(which, at + a.len())
    } else {
        otherwise
    }
}

// The same of an alternative whose number field begins at its byte `lead` and has `width` figures.
pub fn figures_or(
    g: &[u8],
    at: usize,
    which: usize,
    a: &[u8],
    lead: usize,
    width: usize,
    otherwise: Step,
) -> Step
    ensures { result ≡ cond (begins a.now (drop at g.now)) (step_to which (field_at (drop at g.now) lead width) (at + length a.now)) otherwise }
{
    let rest = rest_from(g, at);
    if begins_with(rest, a) {
        let field = figures::field(rest, lead, width);
        let value = Value { which, field };
        Step {
            value,
            past: at + a.len(),
        }
    } else {
        otherwise
    }
}

// What is said at a part that is not there.
fn blank() -> Value
    ensures { result ≡ blank_value }
{
    let field = Field::Other;
    Value { which: 0, field }
}

// The scan of a group whose parts, up to six, say what these steps do and lead to the position `past`: it has the shape just where that is its end.
pub fn scanned(g: &[u8], past: usize, a: Step, b: Step, c: Step, d: Step, e: Step, f: Step) -> Scan
    ensures { result ≡ scan_end past (length g.now) (padded (a.value ∷ b.value ∷ c.value ∷ d.value ∷ e.value ∷ f.value ∷ [])) }
{
    let none = blank();
    if past == g.len() {
        let first = a.value;
        let second = b.value;
        let third = c.value;
        let fourth = d.value;
        let fifth = e.value;
        let sixth = f.value;
        let values = [first, second, third, fourth, fifth, sixth, none, none];
        Scan { fits: true, values }
    } else {
        let values = [none; 8];
        Scan {
            fits: false,
            values,
        }
    }
}
