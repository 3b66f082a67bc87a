// Writing over a lent buffer: what parts a group from the one before it, the end of a report, and a whole text or nothing.
ghost use Rattle.std.specs.Prelude.{◌≡◌, cond, ◌∷◌, [], length, Ok};
ghost use Rattle.figures.specs.Put.{Put};
ghost use Rattle.text.specs.Groups.{opening, written};
ghost use Rattle.text.specs.Write.{answer_by, buffer_by};

use crate::kinds::Refusal;
use figures::put;

// Parts a group from the one before it, if any stands before it.
pub fn open_group(out: &mut [u8], at: usize) -> usize
    ensures { Put out.old at (opening at) result out.new }
{
    if at == 0 {
        at
    } else {
        put::put_byte(out, at, b' ')
    }
}

// A group of fixed bytes.
pub fn put_group(out: &mut [u8], at: usize, group: &[u8]) -> usize
    ensures { Put out.old at (written at (group.now ∷ [])) result out.new }
{
    let opened = open_group(out, at);
    put::put_text(out, opened, group)
}

// The same if the report has it.
pub fn put_if(out: &mut [u8], at: usize, has: bool, group: &[u8]) -> usize
    ensures { Put out.old at (written at (cond has (group.now ∷ []) [])) result out.new }
{
    if has { put_group(out, at, group) } else { at }
}

// Ends the report.
pub fn close_report(out: &mut [u8], at: usize) -> usize
    ensures { Put out.old at (61 ∷ []) result out.new }
{
    put::put_byte(out, at, b'=')
}

// The text of a record that is judged fine goes into the lent buffer if it has room.
pub fn deliver(text: &[u8], out: &mut [u8]) -> Result<usize, Refusal>
    ensures { (result ≡ answer_by (Ok tt) text.now (length out.old)) × (out.new ≡ buffer_by (Ok tt) text.now out.old) }
{
    if out.len() < text.len() {
        return Err(Refusal::Room);
    }
    let count = put::put_text(out, 0, text);
    Ok(count)
}
