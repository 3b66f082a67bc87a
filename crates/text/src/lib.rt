// Cutting a text: its bytes and length judged, its groups one after the other with their places, what follows the "=", the trimmed part.
#![tactic(auto)]

pub mod judge;
pub mod kinds;
pub mod write;

ghost use Rattle.std.specs.Prelude.{◌≡◌, ◌+◌, length, drop};
ghost use Rattle.figures.specs.Figures.{every};
ghost use Rattle.text.specs.Refusals.{number_of};
ghost use Rattle.text.specs.Bytes.{parting, inner, allowed, passes, lead, last_end};
ghost use Rattle.text.specs.Groups.{next_of, part_of};
ghost use Rattle.text.specs.Part.{PartAt};
ghost use Rattle.text.specs.Text.{equals_at, bytes_of, tail_of, TrimmedPart};

use kinds::{Bytes, Cut, Refusal};

// Document 01's number of a refusal.
pub fn refusal_number(r: Refusal) -> u8
    ensures { result ≡ number_of r }
{
    match r {
        Refusal::Length => 1,
        Refusal::Byte => 2,
        Refusal::Kind => 3,
        Refusal::Shape => 4,
        Refusal::Figure => 5,
        Refusal::Order => 6,
        Refusal::Disagreement => 7,
        Refusal::Absence => 8,
        Refusal::Limit => 9,
        Refusal::Room => 10,
        Refusal::Value => 11,
        Refusal::Times => 15,
    }
}

pub fn is_parting(b: u8) -> bool
    ensures { result ≡ parting b }
{
    (b == b' ') | (b == b'\r') | (b == b'\n')
}

// A byte of a group: no parting byte and not "=".
pub fn is_inner(b: u8) -> bool
    ensures { result ≡ inner b }
{
    !((b == b' ') | (b == b'\r') | (b == b'\n') | (b == b'='))
}

// A byte that a text may hold.
pub fn is_allowed(b: u8) -> bool
    ensures { result ≡ allowed b }
{
    ((b'A' <= b) & (b <= b'Z'))
        | ((b'0' <= b) & (b <= b'9'))
        | (b == b'/')
        | (b == b'+')
        | (b == b'-')
        | (b == b'=')
        | (b == b' ')
        | (b == b'\r')
        | (b == b'\n')
}

// The kinds of bytes that a run over a text goes by.
#[derive(Clone, Copy)]
enum Run {
    // Bytes that part groups.
    Parting,
    // Bytes of a group.
    Inner,
    // Bytes other than "=".
    Other,
    // Bytes that a text may hold.
    Allowed,
}

// Whether a byte belongs to a run.
fn passes(run: Run, b: u8) -> bool
    ensures { result ≡ passes run b }
{
    match run {
        Run::Parting => is_parting(b),
        Run::Inner => is_inner(b),
        Run::Other => !(b == b'='),
        Run::Allowed => is_allowed(b),
    }
}

// The first position at or after `at` whose byte is not of the run.
fn reach(text: &[u8], at: usize, run: Run) -> usize
    ensures { result ≡ at + lead (passes run) (drop at text.now) }
{
    for i in at..text.len() {
        if !passes(run, text[i]) {
            return i;
        }
    }
    at.max(text.len())
}

// The next group at or after `at`, or where the groups end.
pub fn next_group(text: &[u8], at: usize) -> Cut
    ensures { result ≡ next_of text.now at }
{
    if text.len() <= at {
        return Cut::End { at: text.len() };
    }
    let start = reach(text, at, Run::Parting);
    if text.len() <= start {
        return Cut::End { at: start };
    }
    if is_inner(text[start]) {
        let end = reach(text, start, Run::Inner);
        Cut::Group { start, end }
    } else {
        Cut::End { at: start }
    }
}

// The empty part at the text's end.
fn no_part(text: &[u8]) -> &[u8]
    ensures { PartAt text.entry result (length text.now) (length text.now) }
{
    let over = text.len();
    &text[over..]
}

// The part of the text from start up to end, where it lies in the caller's text; the empty part at the text's end where there is no such part.
pub fn part_at(text: &[u8], start: usize, end: usize) -> &[u8]
    ensures { PartAt text.entry result start end }
{
    if start <= end {
        if end <= text.len() {
            return &text[start..end];
        }
    }
    no_part(text)
}

// The same part for its bytes, which are all that a reader asks of a group.
pub fn part(text: &[u8], start: usize, end: usize) -> &[u8]
    ensures { result.now ≡ part_of text.now start end }
{
    part_at(text, start, end)
}

// The whole part anew, where it lies. A part is handed over as its place and its length, stored one by one and fetched as one, and a processor waits with
// that until both are stored; of a part taken anew each is fetched by itself. It pays where much is asked of a group that was just cut.
pub fn anew(g: &[u8]) -> &[u8]
    ensures { PartAt g.entry result 0 (length g.now) }
{
    let end = g.len();
    part_at(g, 0, end)
}

// The position after the last byte that is no parting byte; 0 where all are.
fn find_last_end(text: &[u8]) -> usize
    ensures { result ≡ last_end text.now }
{
    text.iter()
        .rposition(|&b| !is_parting(b))
        .map_or(0, |i| i + 1)
}

// Are all bytes of the text of the run? The loop looks at every byte and does not leave early, so that the compiler takes many bytes at a time.
fn are_all(text: &[u8], run: Run) -> bool
    ensures { result ≡ every (passes run) text.now }
{
    let mut fine = true;
    for &b in text {
        fine &= passes(run, b);
    }
    fine
}

// The place of the first "="; the length where there is none. In most texts it is the last byte that parts no groups: then those before it are
// looked at many at a time, and not one by one.
fn find_equals(text: &[u8]) -> usize
    ensures { result ≡ equals_at text.now }
{
    let end = find_last_end(text);
    if 0 < end {
        let last = end - 1;
        if text[last] == b'=' {
            if are_all(&text[..last], Run::Other) {
                return last;
            }
        }
    }
    reach(text, 0, Run::Other)
}

// Refusals 1 and 2 over the whole text; the place of a byte that is not allowed is looked for only where there is one.
pub fn judge_bytes(text: &[u8]) -> Bytes
    ensures { result ≡ bytes_of text.now }
{
    if text.len() == 0 {
        return Bytes::Length;
    }
    if 2048 < text.len() {
        return Bytes::Length;
    }
    if are_all(text, Run::Allowed) {
        Bytes::Sound
    } else {
        Bytes::Byte(reach(text, 0, Run::Allowed))
    }
}

// What follows the first "=".
pub fn tail(text: &[u8]) -> Option<usize>
    ensures { result ≡ tail_of text.now }
{
    let equals = find_equals(text);
    if text.len() <= equals {
        return None;
    }
    let place = reach(text, equals + 1, Run::Parting);
    if place < text.len() {
        Some(place)
    } else {
        None
    }
}

// From the first group's first byte through the first "=" or, without one, the last group; the empty part at the text's end where no group
// stands before an "=" or the end.
pub fn trimmed(text: &[u8]) -> &[u8]
    ensures { TrimmedPart text.entry result }
{
    let start = reach(text, 0, Run::Parting);
    let equals = find_equals(text);
    if equals <= start {
        return no_part(text);
    }
    if equals < text.len() {
        part_at(text, start, equals + 1)
    } else {
        part_at(text, start, find_last_end(text))
    }
}
