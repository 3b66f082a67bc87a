// How each group is written over a lent buffer, with what parts it from the group before it. Every function answers the position after its text.
// What a buffer has no room for is not written, so that a caller may judge the room afterwards.
ghost use Rattle.std.specs.Prelude.{◌≡◌, ◌∷◌, [], map, take};
ghost use Rattle.figures.specs.Figures.{field_text};
ghost use Rattle.figures.specs.Put.{Put};
ghost use Rattle.text.specs.Groups.{written};
ghost use Rattle.scales.specs.Scale.{figure_of};
ghost use Rattle.scales.specs.Metres.{runway};
ghost use Rattle.elements.specs.Wind.{chosen, numbered};
ghost use Rattle.aerodrome_groups.specs.Head.{field_of, show_time};
ghost use Rattle.aerodrome_groups.specs.Runway.{side_value, course_value, mark_of, figures_of, mark_value, range_value, show_runway, show_runways};
ghost use Rattle.aerodrome_groups.specs.Temperatures.{pressure_field, show_temperatures, show_qnh};
ghost use Rattle.aerodrome_groups.specs.Values.{minus_of, whole_of};

use figures::kinds::Field;
use figures::put::{put_byte, put_field, put_text};
use record::aerodrome::{Course, Instant, Qnh, Runway, Runways, Side, Station, Temperatures};
use scales::degrees::degrees_figure;
use scales::kinds::{Degrees, Range};
use scales::metres::runway_figure;
use scales::pressure::pressure_figure;
use shapes::kinds::Value;
use shapes::print::put_shape;
use text::write::open_group;

// CCCC
pub fn put_station(out: &mut [u8], at: usize, s: Station) -> usize
    ensures { Put out.old at (written at (s.letters ∷ [])) result out.new }
{
    let opened = open_group(out, at);
    put_text(out, opened, &s.letters)
}

pub fn field_of(n: Option<u32>) -> Field
    ensures { result ≡ field_of n }
{
    match n {
        None => Field::Missing,
        Some(v) => Field::Number(v),
    }
}

pub fn put_two(out: &mut [u8], at: usize, n: Option<u32>) -> usize
    ensures { Put out.old at (field_text 2 (field_of n)) result out.new }
{
    put_field(out, at, 2, field_of(n))
}

// YYGGggZ
pub fn put_time(out: &mut [u8], at: usize, t: Instant) -> usize
    ensures { Put out.old at (written at (show_time t ∷ [])) result out.new }
{
    let opened = open_group(out, at);
    let dated = put_two(out, opened, t.day);
    let timed = put_two(out, dated, t.hour);
    let told = put_two(out, timed, t.minute);
    put_byte(out, told, b'Z')
}

// ---- what a shape prints: an alternative without figures, and the first one with its number

fn chosen(which: usize) -> Value
    ensures { result ≡ chosen which }
{
    Value {
        which,
        field: Field::Other,
    }
}

fn numbered(f: Field) -> Value
    ensures { result ≡ numbered 0 f }
{
    Value { which: 0, field: f }
}

// ---- runway visual ranges

fn side_value(s: Side) -> Value
    ensures { result ≡ side_value s }
{
    match s {
        Side::None => chosen(3),
        Side::Left => chosen(0),
        Side::Centre => chosen(1),
        Side::Right => chosen(2),
    }
}

fn course_value(c: Course) -> Value
    ensures { result ≡ course_value c }
{
    match c {
        Course::None => chosen(3),
        Course::Up => chosen(0),
        Course::Down => chosen(1),
        Course::NoChange => chosen(2),
    }
}

// The range of so many metres as it is written; what is too far to be judged fine is over 2,000 m too.
#[tactic(auto, using(crate::proofs::Writings::ranges))]
fn range_figure(metres: u32) -> Range
    ensures { result ≡ figure_of runway metres }
{
    runway_figure(metres).unwrap_or(Range::Above(2000))
}

fn mark_of(r: Range) -> Value
    ensures { result ≡ mark_of r }
{
    match r {
        Range::Below(_) => chosen(0),
        Range::Exact(_) => chosen(2),
        Range::Above(_) => chosen(1),
    }
}

fn figures_of(r: Range) -> Value
    ensures { result ≡ figures_of r }
{
    match r {
        Range::Below(n) | Range::Exact(n) | Range::Above(n) => numbered(Field::Number(n)),
    }
}

fn mark_value(range: Option<u32>) -> Value
    ensures { result ≡ mark_value range }
{
    match range {
        None => chosen(2),
        Some(m) => mark_of(range_figure(m)),
    }
}

fn range_value(range: Option<u32>) -> Value
    ensures { result ≡ range_value range }
{
    match range {
        None => numbered(Field::Missing),
        Some(m) => figures_of(range_figure(m)),
    }
}

fn put_runway(out: &mut [u8], at: usize, w: Runway) -> usize
    ensures { Put out.old at (written at (show_runway w ∷ [])) result out.new }
{
    let blank = chosen(0);
    let values = [
        numbered(field_of(w.number)),
        side_value(w.side),
        blank,
        mark_value(w.range),
        range_value(w.range),
        course_value(w.course),
        blank,
        blank,
    ];
    let opened = open_group(out, at);
    put_shape(out, opened, b"R## L|C|R| / M|P| #### U|D|N|", values)
}

// The first `count` slots; all where the count is too large.
// A loop for each kind of item: `text` cannot have a trait that the items of `record` take up here, and what a closure writes into the buffer is not known after it.
fn put_each(out: &mut [u8], at: usize, items: [Runway; 4], count: usize) -> usize
    ensures { Put out.old at (written at (map show_runway (take count items))) result out.new }
{
    let mut next = at;
    for w in items.iter().take(count) {
        next = put_runway(out, next, *w);
    }
    next
}

#[tactic(auto, unfolding(crate::specs::Runway::show_runways))]
pub fn put_runways(out: &mut [u8], at: usize, rs: Runways) -> usize
    ensures { Put out.old at (written at (show_runways rs)) result out.new }
{
    put_each(out, at, rs.items, rs.count)
}

// ---- temperatures and Q

// M, nothing, or no text where the temperature is out of range.
fn minus_of(t: Option<i32>) -> Value
    ensures { result ≡ minus_of t }
{
    match t {
        None => chosen(1),
        Some(t) => {
            match degrees_figure(t) {
                Some(Degrees { minus: true, .. }) => chosen(0),
                Some(_) => chosen(1),
                None => chosen(2),
            }
        }
    }
}

fn whole_of(t: Option<i32>) -> Value
    ensures { result ≡ whole_of t }
{
    match t {
        None => numbered(Field::Missing),
        Some(t) => {
            match degrees_figure(t) {
                Some(d) => numbered(Field::Number(d.whole)),
                None => chosen(0),
            }
        }
    }
}

// T/Td
pub fn put_temperatures(out: &mut [u8], at: usize, t: Temperatures) -> usize
    ensures { Put out.old at (written at (show_temperatures t ∷ [])) result out.new }
{
    let blank = chosen(0);
    let values = [
        minus_of(t.air),
        whole_of(t.air),
        blank,
        minus_of(t.dew),
        whole_of(t.dew),
        blank,
        blank,
        blank,
    ];
    let opened = open_group(out, at);
    put_shape(out, opened, b"M| ## / M| ##", values)
}

fn pressure_field(n: Option<u32>) -> Field
    ensures { result ≡ pressure_field n }
{
    match n {
        None => Field::Missing,
        Some(p) => {
            match pressure_figure(p) {
                Some(whole) => Field::Number(whole),
                None => Field::Other,
            }
        }
    }
}

// Q
pub fn put_qnh(out: &mut [u8], at: usize, q: Qnh) -> usize
    ensures { Put out.old at (written at (show_qnh q ∷ [])) result out.new }
{
    let opened = open_group(out, at);
    let begun = put_text(out, opened, b"Q");
    put_field(out, begun, 4, pressure_field(q.is))
}
