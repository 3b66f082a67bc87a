// Figures, letters and slashes; number fields of 1 to 5 figures, read; signed tenths taken apart and put together.
// Writing is in `put`.
#![tactic(auto)]

pub mod kinds;
pub mod put;
pub mod signed;

ghost use Rattle.std.specs.Prelude.{◌≡◌, ◌≤◌, length, get_or, false};
ghost use Rattle.figures.specs.Figures.{is_figure, is_slash, is_letter, scan, field_at};

use kinds::Field;

pub fn is_figure(b: u8) -> bool
    ensures { result ≡ is_figure b }
{
    b.is_ascii_digit()
}

pub fn is_slash(b: u8) -> bool
    ensures { result ≡ is_slash b }
{
    b == b'/'
}

pub fn is_letter(b: u8) -> bool
    ensures { result ≡ is_letter b }
{
    b.is_ascii_uppercase()
}

// The byte at i; 0 past the end.
pub fn byte_at(s: &[u8], i: usize) -> u8
    ensures { result ≡ get_or s.now i 0 }
{
    s.get(i).copied().unwrap_or(0)
}

// What all the bytes of s hold: at most five, so that the number fits.
fn field_of(s: &[u8]) -> Field
    requires { length s.now ≤ 5 }
    ensures { result ≡ scan 0 false false s.now }
{
    let mut n: u32 = 0;
    let mut fig = false;
    let mut slash = false;
    for &b in s {
        if is_figure(b) {
            n = n * 10 + (b - b'0') as u32;
            fig = true;
        } else if is_slash(b) {
            slash = true;
        } else {
            return Field::Other;
        }
    }
    match (slash, fig) {
        (true, true) => Field::Mixed,
        (true, false) => Field::Missing,
        (false, _) => Field::Number(n),
    }
}

// What the number field of `width` bytes at `at` of g holds.
pub fn field(g: &[u8], at: usize, width: usize) -> Field
    ensures { result ≡ field_at g.now at width }
{
    if width == 0 {
        return Field::Other;
    }
    if 5 < width {
        return Field::Other;
    }
    if g.len() < width {
        return Field::Other;
    }
    if g.len() - width < at {
        return Field::Other;
    }
    field_of(&g[at..at + width])
}
