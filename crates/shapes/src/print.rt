// The printer: a group put together by its shape.
ghost use Rattle.std.specs.Prelude.{◌≡◌, [], ◌≤◌, length, get_or};
ghost use Rattle.figures.specs.Put.{Put};
ghost use Rattle.shapes.specs.Shape.{up_to, run_length, split, filled, print_of};

use crate::kinds::Value;
use figures::kinds::Field;

// How many bytes of s stand before its first c.
fn up_to(s: &[u8], c: u8) -> usize
    ensures { (result ≡ up_to c s.now) × (result ≤ length s.now) }
{
    s.iter().position(|&b| b == c).unwrap_or(s.len())
}

// How many '#' the pattern begins with.
fn run_length(pattern: &[u8]) -> usize
    ensures { (result ≡ run_length pattern.now) × (result ≤ length pattern.now) }
{
    pattern.iter().take_while(|&&b| b == b'#').count()
}

// Alternative number `which` of the part; nothing where it has none.
fn alternative(part: &[u8], which: usize) -> &[u8]
    ensures { result.now ≡ get_or (split 124 part.now) which [] }
{
    part.split(|&b| b == b'|').nth(which).unwrap_or(&[])
}

// An alternative with its number field filled in, put over out from `at`.
fn put_filled(out: &mut [u8], at: usize, a: &[u8], f: Field) -> usize
    ensures { Put out.old at (filled a.now f) result out.new }
{
    let start = up_to(a, b'#');
    let width = run_length(&a[start..]);
    let end = start + width;
    let first = figures::put::put_text(out, at, &a[..start]);
    let second = figures::put::put_field(out, first, width, f);
    figures::put::put_text(out, second, &a[end..])
}

// The group that says the values at the parts of the shape, put over out from `at`.
pub fn put_shape(out: &mut [u8], at: usize, shape: &[u8], values: [Value; 8]) -> usize
    ensures { Put out.old at (print_of shape.now values) result out.new }
{
    let mut next = at;
    for (part, v) in shape.split(|&b| b == b' ').zip(&values) {
        next = put_filled(out, next, alternative(part, v.which), v.field);
    }
    next
}
