// A walker: it holds the lent report and a position in it, and gives one group at a time. The functions over it are thin: each takes the walker
// apart and leaves the work to a function over the plain text, `text::next_group`, `after` or `bytes_at`.
#![tactic(auto)]

ghost use Rattle.std.specs.Prelude.{◌≡◌};
ghost use Rattle.text.specs.Groups.{next_of};
ghost use Rattle.text.specs.Part.{PartAt};
ghost use Rattle.walker.specs.Walk.{start_of, after_of};

use text::kinds::Cut;

#[derive(Clone, Copy)]
pub struct Walker<'a> {
    // The whole report.
    pub text: &'a [u8],
    // Where the next group is looked for.
    pub at: usize,
}

// Where the walk goes on after what was given: a group's end; where the groups ended, there.
pub fn after(cut: Cut) -> usize
    ensures { result ≡ after_of cut }
{
    match cut {
        Cut::Group { end, .. } => end,
        Cut::End { at } => at,
    }
}

// The bytes of what was given: a group's own, where they lie in the text; the empty part where the groups ended.
pub fn bytes_at(text: &[u8], cut: Cut) -> &[u8]
    ensures { PartAt text.entry result (start_of cut) (after_of cut) }
{
    match cut {
        Cut::Group { start, end } => text::part_at(text, start, end),
        Cut::End { at } => text::part_at(text, at, at),
    }
}

// A walker at the text's beginning.
pub fn walk<'a>(text: &'a [u8]) -> Walker<'a>
    ensures { (result.text ≡ text.entry) × (result.at ≡ 0) }
{
    Walker { text, at: 0 }
}

// The group at or after the walker's position, or where the groups end. The walker stays.
pub fn group<'a>(w: Walker<'a>) -> Cut
    ensures { result ≡ next_of w.entry.text.now w.entry.at }
{
    text::next_group(w.text, w.at)
}

// The walker past what was given.
pub fn past<'a>(w: Walker<'a>, cut: Cut) -> Walker<'a>
    ensures { (result.text ≡ w.entry.text) × (result.at ≡ after_of cut) }
{
    Walker {
        at: after(cut),
        ..w
    }
}

// Gives the group at or after the walker's position, and moves past it.
pub fn next<'s, 'a>(w: &'s mut Walker<'a>) -> Cut
    ensures { (result ≡ next_of w.old.text.now w.old.at) × (w.new.text ≡ w.old.text) × (w.new.at ≡ after_of (next_of w.old.text.now w.old.at)) }
{
    let cut = group(*w);
    w.at = after(cut);
    cut
}

// The bytes of what the walker gave, where they lie in the text that it holds.
pub fn bytes_of<'a>(w: Walker<'a>, cut: Cut) -> &'a [u8]
    ensures { PartAt w.entry.text result (start_of cut) (after_of cut) }
{
    bytes_at(w.text, cut)
}

// The first group of a text. Its parameter is a plain text, so that whoever calls it needs no walk.
pub fn first_group(text: &[u8]) -> Cut
    ensures { result ≡ next_of text.now 0 }
{
    group(walk(text))
}

// The group at or after a position.
pub fn group_from(text: &[u8], at: usize) -> Cut
    ensures { result ≡ next_of text.now at }
{
    group(Walker { text, at })
}
