// The slots of a call sign.
ghost use Rattle.std.specs.Prelude.{◌≡◌};
ghost use Rattle.figures.specs.Figures.{every};
ghost use Rattle.synop_groups.specs.Judge.{slot_fits};

use figures::{is_figure, is_letter};

// A slot of a name: a letter or figure up to the count, blank past it.
fn slot_fits(filled: bool, b: u8) -> bool
    ensures { result ≡ slot_fits filled b }
{
    if filled {
        is_letter(b) | is_figure(b)
    } else {
        b == 0
    }
}

// Are all slots such?
pub fn slots_fit(filled: bool, s: &[u8]) -> bool
    ensures { result ≡ every (slot_fits filled) s.now }
{
    s.iter().all(|b| slot_fits(filled, *b))
}
