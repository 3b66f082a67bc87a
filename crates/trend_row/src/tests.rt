// What decides at a word or at a change's end: whether the change lacks its element, whether there is room for one more, what the words are.
ghost use Rattle.std.specs.Prelude.{◌≡◌};
ghost use Rattle.trend_row.specs.Tests.{lacks_in, is_full};

use crate::kinds::Word;
use crate::row::is_change;
use body::judge::has_element;
use record::aerodrome::Body;

// Has a change no element?
pub fn lacks(word: Word, b: Body) -> bool
    ensures { result ≡ lacks_in word b }
{
    is_change(word) & !has_element(b)
}

// There is no room for one change more.
pub fn is_full(changes: usize) -> bool
    ensures { result ≡ is_full changes }
{
    3 <= changes
}
