// How section 3 is written over a lent buffer: 333 where something follows it, and each group with what parts it from the group before it. Every function
// answers the position after its text. What a buffer has no room for is not written, so that a caller may judge the room afterwards.
ghost use Rattle.std.specs.Prelude.{◌≡◌, map, take};
ghost use Rattle.figures.specs.Put.{Put};
ghost use Rattle.text.specs.Groups.{written};
ghost use Rattle.synop_groups.specs.Shows.{show_layer};
ghost use Rattle.section3.specs.Write.{is_silent, show_section3};

use record::surface::{CloudLayer, Section3};
use synop_groups_write::write::{put_air, put_layer, put_minimum};
use text::write::put_if;

// The first `count` slots; all where the count is too large.
// A loop for each kind of item: `text` cannot have a trait that the items of `record` take up here, and what a closure writes into the buffer is not known after it.
fn put_layers(out: &mut [u8], at: usize, items: [CloudLayer; 4], count: usize) -> usize
    ensures { Put out.old at (written at (map show_layer (take count items))) result out.new }
{
    let mut next = at;
    for l in items.iter().take(count) {
        next = put_layer(out, next, *l);
    }
    next
}

// Has the section nothing to say?
fn is_silent(s: Section3) -> bool
    ensures { result ≡ is_silent s }
{
    let maximum = s.maximum;
    let highest = maximum.temperature;
    let minimum = s.minimum;
    let lowest = minimum.temperature;
    let layers = s.layers;
    let count = layers.count;
    highest.is_none() & lowest.is_none() & (count == 0)
}

pub fn put_section3(out: &mut [u8], at: usize, s: Section3) -> usize
    ensures { Put out.old at (written at (show_section3 s)) result out.new }
{
    let maximum = s.maximum;
    let minimum = s.minimum;
    let layers = s.layers;
    let items = layers.items;
    let count = layers.count;
    let opened = put_if(out, at, !is_silent(s), b"333");
    let highest = put_air(out, opened, maximum);
    let lowest = put_minimum(out, highest, minimum);
    put_layers(out, lowest, items, count)
}
