// Text put over a lent buffer from a position on. Every function answers the position after its text. Bytes that the buffer has no room for
// are not written, and a position that has reached the buffer's end stays: `Put` says so, and one law (`then`) puts two texts one after the other.
ghost use Rattle.std.specs.Prelude.{◌∷◌, []};
ghost use Rattle.figures.specs.Figures.{figures, number_text, slashes, field_text};
ghost use Rattle.figures.specs.Put.{Put};

use crate::kinds::Field;

pub fn put_byte(out: &mut [u8], at: usize, b: u8) -> usize
    ensures { Put out.old at (b ∷ []) result out.new }
{
    if at < out.len() {
        out[at] = b;
        at + 1
    } else {
        at
    }
}

// The `width` last figures of n, most significant first.
fn put_figures(out: &mut [u8], at: usize, width: usize, n: u32) -> usize
    ensures { Put out.old at (figures width n) result out.new }
{
    if width == 0 {
        return at;
    }
    let last = put_figures(out, at, width - 1, n / 10);
    put_byte(out, last, b'0' + (n % 10) as u8)
}

// A number field of 1 to 5 figures, leading zeros written; for another width nothing.
pub fn put_number(out: &mut [u8], at: usize, width: usize, n: u32) -> usize
    ensures { Put out.old at (number_text width n) result out.new }
{
    if width <= 5 {
        put_figures(out, at, width, n)
    } else {
        at
    }
}

// All of s.
pub fn put_text(out: &mut [u8], at: usize, s: &[u8]) -> usize
    ensures { Put out.old at s.now result out.new }
{
    let mut next = at;
    for &b in s {
        next = put_byte(out, next, b);
    }
    next
}

// As many slashes as the width, up to 5; for another width nothing.
fn put_slashes(out: &mut [u8], at: usize, width: usize) -> usize
    ensures { Put out.old at (slashes width) result out.new }
{
    let five: &[u8] = b"/////";
    if width <= 5 {
        put_text(out, at, &five[..width])
    } else {
        at
    }
}

// A number field that may be missing: as many slashes as figures.
pub fn put_field(out: &mut [u8], at: usize, width: usize, f: Field) -> usize
    ensures { Put out.old at (field_text width f) result out.new }
{
    match f {
        Field::Number(n) => put_number(out, at, width, n),
        Field::Missing => put_slashes(out, at, width),
        Field::Mixed => at,
        Field::Other => at,
    }
}
