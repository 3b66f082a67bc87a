// Shapes of groups, written as text. A pattern has '#' for a figure or slash, '@' for a letter, '?' for any byte, '*' at its end for anything
// more, and stands for itself elsewhere: "Q####". A shape has parts, with a space between them, and a part has alternatives, with '|' between
// them, of which the first that fits stands there; the last may be nothing: "R## L|C|R| / M|P| #### U|D|N|".
#![tactic(auto)]

pub mod kinds;
pub mod print;
pub mod scan;

ghost use Rattle.std.specs.Prelude.{◌≡◌};
ghost use Rattle.shapes.specs.Pattern.{low, high, fits, has_pattern};

// The least and the greatest byte that may stand where a pattern has p.
fn lowest(p: u8) -> u8
    ensures { result ≡ low p }
{
    match p {
        b'#' => b'/',
        b'@' => b'A',
        b'?' => 0,
        _ => p,
    }
}

fn highest(p: u8) -> u8
    ensures { result ≡ high p }
{
    match p {
        b'#' => b'9',
        b'@' => b'Z',
        b'?' => 255,
        _ => p,
    }
}

// The byte b may stand where a pattern has p.
fn fits_at(p: u8, b: u8) -> bool
    ensures { result ≡ fits p b }
{
    let l = lowest(p);
    let h = highest(p);
    (l <= b) & (b <= h)
}

// The whole group fits the pattern.
pub fn has_pattern(g: &[u8], pattern: &[u8]) -> bool
    ensures { result ≡ has_pattern g.now pattern.now }
{
    let mut rest = g;
    for &p in pattern {
        if p == b'*' {
            return true;
        }
        let Some((&b, tail)) = rest.split_first() else {
            return false;
        };
        if !fits_at(p, b) {
            return false;
        }
        rest = tail;
    }
    rest.is_empty()
}
