// A sky group read beside the sky that the groups before it gave.
ghost use Rattle.std.specs.Prelude.{◌≡◌, get_or, take, Ok};
ghost use Rattle.shapes.specs.Pattern.{has_any};
ghost use Rattle.shapes.specs.Shape.{has_shape, scan_of, blank_value};
ghost use Rattle.elements.specs.Answers.{layer_said, alone_said, sky_said};
ghost use Rattle.elements.specs.Sky.{layer_shape, alone_shapes, has_sky, height_of, amount_of, convective_of, layer_by, read_alone, not_above, rises, add_layer};
ghost use Rattle.sky.specs.Answers.{vertical_by};

use elements::kinds::Said;
use figures::field;
use figures::kinds::Field;
use record::aerodrome::{Amount, Convective, Cover, Layer, Sky};
use scales::metres::cloud_reading;
use shapes::has_pattern;
use shapes::kinds::{Scan, Value};
use shapes::scan::{absent, figures_or, nothing, scanned, word_or};
use text::kinds::Refusal;

// FEW, SCT, BKN or OVC, hhh, and CB or TCU or nothing: by code made for the shape.
fn scan_layer(g: &[u8]) -> Scan
    ensures { result ≡ scan_of layer_shape g.now }
{
    let none = absent(g);
    let overcast = word_or(g, 0, 3, b"OVC", none);
    let broken = word_or(g, 0, 2, b"BKN", overcast);
    let scattered = word_or(g, 0, 1, b"SCT", broken);
    let amount = word_or(g, 0, 0, b"FEW", scattered);
    let height = figures_or(g, amount.past, 0, b"###", 0, 3, none);
    let at = height.past;
    let neither = nothing(2, at);
    let towering = word_or(g, at, 1, b"TCU", neither);
    let convective = word_or(g, at, 0, b"CB", towering);
    scanned(
        g,
        convective.past,
        amount,
        height,
        convective,
        none,
        none,
        none,
    )
}

// The same as a test.
#[tactic(auto, unfolding(shapes::specs::Shape::has_shape))]
fn is_layer(g: &[u8]) -> bool
    ensures { result ≡ has_shape layer_shape g.now }
{
    scan_layer(g).fits
}

#[tactic(auto, unfolding(shapes::specs::Pattern::has_any))]
fn stands_alone(g: &[u8]) -> bool
    ensures { result ≡ has_any alone_shapes g.now }
{
    has_pattern(g, b"SKC")
        | (has_pattern(g, b"NSC") | (has_pattern(g, b"NCD") | has_pattern(g, b"VV###")))
}

pub fn has_sky(g: &[u8]) -> bool
    ensures { result ≡ has_sky g.now }
{
    is_layer(g) | stands_alone(g)
}

// hhh, by table 1690; in a TAF a height is not missing.
fn height_of(forecast: bool, f: Field) -> Result<Option<u32>, Refusal>
    ensures { result ≡ height_of forecast f }
{
    match f {
        Field::Number(n) => match cloud_reading(n) {
            Some(m) => Ok(Some(m)),
            None => Err(Refusal::Figure),
        },
        Field::Missing => {
            if forecast {
                Err(Refusal::Figure)
            } else {
                Ok(None)
            }
        }
        Field::Mixed | Field::Other => Err(Refusal::Figure),
    }
}

fn amount_of(which: usize) -> Amount
    ensures { result ≡ amount_of which }
{
    if which == 0 {
        Amount::Few
    } else if which == 1 {
        Amount::Scattered
    } else if which == 2 {
        Amount::Broken
    } else {
        Amount::Overcast
    }
}

fn convective_of(which: usize) -> Convective
    ensures { result ≡ convective_of which }
{
    if which == 0 {
        Convective::Cumulonimbus
    } else if which == 1 {
        Convective::ToweringCumulus
    } else {
        Convective::None
    }
}

// The layer that a group's three parts say.
fn layer_by(
    forecast: bool,
    amount: Value,
    height: Value,
    convective: Value,
) -> Result<Layer, Refusal>
    ensures { result ≡ layer_by forecast amount height convective }
{
    let h = height_of(forecast, height.field)?;
    Ok(Layer {
        amount: amount_of(amount.which),
        height: h,
        convective: convective_of(convective.which),
    })
}

// The layer of a group that was scanned by the shape of a layer.
fn read_layer(forecast: bool, values: [Value; 8]) -> Result<Layer, Refusal>
    ensures { result ≡ layer_by forecast (get_or values 0 blank_value) (get_or values 1 blank_value) (get_or values 2 blank_value) }
{
    layer_by(forecast, values[0], values[1], values[2])
}

// VVhhh
fn read_vertical(forecast: bool, f: Field) -> Result<Cover, Refusal>
    ensures { result ≡ vertical_by forecast f }
{
    Ok(Cover::Vertical(height_of(forecast, f)?))
}

#[tactic(auto, unfolding(elements::specs::Sky::read_alone))]
fn read_alone(forecast: bool, g: &[u8]) -> Result<Cover, Refusal>
    ensures { result ≡ read_alone forecast g.now }
{
    if has_pattern(g, b"SKC") {
        Ok(Cover::Clear)
    } else if has_pattern(g, b"NSC") {
        Ok(Cover::NoneSignificant)
    } else if has_pattern(g, b"NCD") {
        Ok(Cover::NoneDetected)
    } else {
        read_vertical(forecast, field(g, 2, 3))
    }
}

// A missing height is above none and below none.
pub fn not_above(a: Option<u32>, b: Option<u32>) -> bool
    ensures { result ≡ not_above a b }
{
    match (a, b) {
        (Some(x), Some(y)) => x <= y,
        _ => true,
    }
}

// None of the first k layers is above h.
fn rises(layers: [Layer; 4], k: usize, h: Option<u32>) -> bool
    ensures { result ≡ rises (take k layers) h }
{
    layers.iter().take(k).all(|l| not_above(l.height, h))
}

// One more layer where k stand; past the fourth there is no room.
pub fn add_layer(k: usize, s: Sky, l: Layer) -> Sky
    ensures { result ≡ add_layer k s l }
{
    if k < 4 {
        let mut layers = s.layers;
        layers[k] = l;
        Sky {
            cover: Cover::Layers,
            layers,
            count: k + 1,
        }
    } else {
        s
    }
}

// A layer, where it agrees with what stands already: CAVOK stands for the clouds, what stands alone for the layers, and heights rise.
fn say_layer(cavok: bool, k: usize, s: Sky, l: Layer) -> Said
    ensures { result ≡ layer_said cavok k s (Ok l) }
{
    if !cavok & s.cover.is_layers() & rises(s.layers, k, l.height) {
        Said::Layer(l)
    } else {
        Said::Refused(Refusal::Disagreement)
    }
}

fn read_as_layer(forecast: bool, cavok: bool, k: usize, scanned: Scan, s: Sky) -> Said
    ensures { result ≡ layer_said cavok k s (layer_by forecast (get_or scanned.values 0 blank_value) (get_or scanned.values 1 blank_value) (get_or scanned.values 2 blank_value)) }
{
    match read_layer(forecast, scanned.values) {
        Ok(l) => say_layer(cavok, k, s, l),
        Err(refusal) => Said::Refused(refusal),
    }
}

// What stands alone, where nothing stands already.
fn read_as_alone(forecast: bool, cavok: bool, k: usize, g: &[u8]) -> Said
    ensures { result ≡ alone_said cavok k (read_alone forecast g.now) }
{
    match read_alone(forecast, g) {
        Ok(c) => {
            if !cavok & (k == 0) {
                Said::Cover(c)
            } else {
                Said::Refused(Refusal::Disagreement)
            }
        }
        Err(refusal) => Said::Refused(refusal),
    }
}

// What the group says beside the sky that the groups before it gave, k of them.
#[tactic(auto, unfolding(shapes::specs::Shape::has_shape, elements::specs::Sky::read_layer, elements::specs::Answers::sky_said))]
pub fn read_sky(forecast: bool, cavok: bool, k: usize, g: &[u8], s: Sky) -> Said
    ensures { result ≡ sky_said forecast cavok k g.now s }
{
    let scanned = scan_layer(g);
    if scanned.fits {
        read_as_layer(forecast, cavok, k, scanned, s)
    } else {
        read_as_alone(forecast, cavok, k, g)
    }
}
