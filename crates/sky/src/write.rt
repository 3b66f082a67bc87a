// How a sky is written over a lent buffer: each group with what parts it from the group before it. Every function answers the position after
// its text.
ghost use Rattle.std.specs.Prelude.{◌≡◌, ◌∷◌, [], ◌++◌, map, take};
ghost use Rattle.figures.specs.Figures.{field_text};
ghost use Rattle.figures.specs.Put.{Put};
ghost use Rattle.figures.specs.Quote.{bytes};
ghost use Rattle.scales.specs.Scale.{figure_of};
ghost use Rattle.scales.specs.Metres.{cloud};
ghost use Rattle.text.specs.Groups.{written};
ghost use Rattle.elements.specs.Wind.{chosen};
ghost use Rattle.elements.specs.Sky.{height_field, amount_value, convective_value, show_layer, cover_groups, show_sky};

use figures::kinds::Field;
use figures::put::{put_field, put_text};
use record::aerodrome::{Amount, Convective, Cover, Layer, Sky};
use scales::metres::cloud_figure;
use shapes::kinds::Value;
use shapes::print::put_shape;
use text::write::open_group;

// The figure of a height; the last class is open above.
pub fn cloud_number(metres: u32) -> u32
    ensures { result ≡ figure_of cloud metres }
{
    cloud_figure(metres).unwrap_or(999)
}

fn height_field(h: Option<u32>) -> Field
    ensures { result ≡ height_field h }
{
    match h {
        None => Field::Missing,
        Some(m) => Field::Number(cloud_number(m)),
    }
}

// An alternative that has no figures.
fn chosen(which: usize) -> Value
    ensures { result ≡ chosen which }
{
    Value {
        which,
        field: Field::Other,
    }
}

fn amount_value(a: Amount) -> Value
    ensures { result ≡ amount_value a }
{
    match a {
        Amount::None => chosen(4),
        Amount::Few => chosen(0),
        Amount::Scattered => chosen(1),
        Amount::Broken => chosen(2),
        Amount::Overcast => chosen(3),
    }
}

fn convective_value(c: Convective) -> Value
    ensures { result ≡ convective_value c }
{
    match c {
        Convective::None => chosen(2),
        Convective::Cumulonimbus => chosen(0),
        Convective::ToweringCumulus => chosen(1),
    }
}

// Amount, hhh, and CB or TCU or nothing.
fn put_layer(out: &mut [u8], at: usize, l: Layer) -> usize
    ensures { Put out.old at (written at (show_layer l ∷ [])) result out.new }
{
    let mut values = [chosen(0); 8];
    values[0] = amount_value(l.amount);
    values[1] = Value {
        which: 0,
        field: height_field(l.height),
    };
    values[2] = convective_value(l.convective);
    let opened = open_group(out, at);
    put_shape(out, opened, b"FEW|SCT|BKN|OVC ### CB|TCU|", values)
}

// The first `count` layers.
// A loop for each kind of item: `text` cannot have a trait that the items of `record` take up here, and what a closure writes into the buffer is not known after it.
fn put_layers(out: &mut [u8], at: usize, layers: [Layer; 4], count: usize) -> usize
    ensures { Put out.old at (written at (map show_layer (take count layers))) result out.new }
{
    let mut next = at;
    for l in layers.iter().take(count) {
        next = put_layer(out, next, *l);
    }
    next
}

// A whole group.
fn put_word(out: &mut [u8], at: usize, word: &[u8]) -> usize
    ensures { Put out.old at (written at (word.now ∷ [])) result out.new }
{
    let opened = open_group(out, at);
    put_text(out, opened, word)
}

// VVhhh
fn put_vertical(out: &mut [u8], at: usize, h: Option<u32>) -> usize
    ensures { Put out.old at (written at ((bytes "VV" ++ field_text 3 (height_field h)) ∷ [])) result out.new }
{
    let opened = open_group(out, at);
    let begun = put_text(out, opened, b"VV");
    put_field(out, begun, 3, height_field(h))
}

// What stands in the place of layers.
fn put_cover(out: &mut [u8], at: usize, c: Cover) -> usize
    ensures { Put out.old at (written at (cover_groups c)) result out.new }
{
    match c {
        Cover::Layers => at,
        Cover::Clear => put_word(out, at, b"SKC"),
        Cover::NoneSignificant => put_word(out, at, b"NSC"),
        Cover::NoneDetected => put_word(out, at, b"NCD"),
        Cover::Vertical(h) => put_vertical(out, at, h),
    }
}

pub fn put_sky(out: &mut [u8], at: usize, s: Sky) -> usize
    ensures { Put out.old at (written at (show_sky s)) result out.new }
{
    let covered = put_cover(out, at, s.cover);
    put_layers(out, covered, s.layers, s.count)
}
