// The heights of layers, as they are written: one after the other they do not fall within one scale.
ghost use Rattle.std.specs.Prelude.{◌≡◌, take};
ghost use Rattle.scales.specs.Scale.{foot_of};
ghost use Rattle.scales.specs.Layers.{layer_steps, layer_bands};
ghost use Rattle.synop_groups.specs.Classes.{class_height};
ghost use Rattle.section3.specs.Row.{not_above, rises};

use record::surface::{BaseHeight, CloudLayer};
use scales::layers;

// A height by steps as it is read back; the last class is open above.
fn steps_foot(metres: u32) -> u32
    ensures { result ≡ foot_of layer_steps metres }
{
    let Some(figure) = layers::steps_figure(metres) else {
        return 21001;
    };
    let Some(foot) = layers::steps_reading(figure) else {
        return metres;
    };
    foot
}

// The same by bands.
fn bands_foot(metres: u32) -> u32
    ensures { result ≡ foot_of layer_bands metres }
{
    let Some(figure) = layers::bands_figure(metres) else {
        return 2500;
    };
    let Some(foot) = layers::bands_reading(figure) else {
        return metres;
    };
    foot
}

fn class_height(height: BaseHeight) -> BaseHeight
    ensures { result ≡ class_height height }
{
    match height {
        BaseHeight::Missing => BaseHeight::Missing,
        BaseHeight::Steps(m) => BaseHeight::Steps(steps_foot(m)),
        BaseHeight::Bands(m) => BaseHeight::Bands(bands_foot(m)),
    }
}

// Of one scale, is the first not above the second?
fn not_above(first: BaseHeight, second: BaseHeight) -> bool
    ensures { result ≡ not_above first second }
{
    match first {
        BaseHeight::Missing => true,
        BaseHeight::Steps(a) => match second {
            BaseHeight::Missing => true,
            BaseHeight::Steps(b) => a <= b,
            BaseHeight::Bands(_) => true,
        },
        BaseHeight::Bands(a) => match second {
            BaseHeight::Missing => true,
            BaseHeight::Steps(_) => true,
            BaseHeight::Bands(b) => a <= b,
        },
    }
}

// None of the first `count` layers is above this one.
pub fn may_follow(items: [CloudLayer; 4], count: usize, layer: CloudLayer) -> bool
    ensures { result ≡ rises (take count items) layer }
{
    let height = layer.height;
    let written = class_height(height);
    items
        .iter()
        .take(count)
        .all(|one| not_above(class_height(one.height), written))
}
