// The six scales in metres, the heights of layers by table 1677, and the depth of deposits in millimetres: a value may be any from the reading, which is its class's foot, up to the next foot.
ghost use Rattle.std.specs.Prelude.{◌≡◌, true};
ghost use Rattle.figures.specs.Figures.{every};
ghost use Rattle.scales.specs.Metres.{land, sea, base, visibility, runway, cloud};
ghost use Rattle.scales.specs.Depth.{depth};
ghost use Rattle.scales.specs.Layers.{layer_steps, layer_bands};
ghost use Rattle.seen_values.specs.Seen.{seen_on};
ghost use Rattle.seen_values.specs.Steps.{if_foot, class_by, is_up_to99999};

use crate::kinds::Seen;
use scales::{depth, layers, metres};

// The class that begins at a foot: with a foot below one of the limits, and not below those before it, a class goes up to the span above its foot;
// the class that begins at the last limit is open above.
fn class_by(foot: u32, limits: &[u32], spans: &[u32]) -> Seen
    requires limits_value { every is_up_to99999 limits.now ≡ true }
    requires spans_value { every is_up_to99999 spans.now ≡ true }
    ensures { result ≡ class_by limits.now spans.now foot }
{
    for (limit, span) in limits.iter().zip(spans) {
        if foot < *limit {
            return Seen::Between {
                least: foot,
                greatest: foot + *span,
            };
        }
    }
    Seen::From { least: foot }
}

// A class, where the number is its foot: what its own figure is read as.
fn if_foot(metres: u32, own: Option<u32>, class: Seen) -> Seen
    ensures { result ≡ if_foot metres own class }
{
    match own {
        Some(foot) => { if foot == metres { class } else { Seen::Nothing } }
        None => Seen::Nothing,
    }
}

// ---- 4377 over land

pub fn land_seen(metres: u32) -> Seen
    ensures { result ≡ seen_on land metres }
{
    let class = class_by(metres, &[5000, 30000, 70000, 70001], &[99, 999, 4999, 0]);
    match metres::land_figure(metres) {
        Some(figure) => if_foot(metres, metres::land_reading(figure), class),
        None => Seen::Nothing,
    }
}

// ---- 4377 at sea

pub fn sea_seen(metres: u32) -> Seen
    ensures { result ≡ seen_on sea metres }
{
    let class = class_by(
        metres,
        &[50, 200, 500, 1000, 2000, 4000, 10000, 20000, 50000],
        &[49, 149, 299, 499, 999, 1999, 5999, 9999, 29999],
    );
    match metres::sea_figure(metres) {
        Some(figure) => if_foot(metres, metres::sea_reading(figure), class),
        None => Seen::Nothing,
    }
}

// ---- 1600 h

pub fn base_seen(metres: u32) -> Seen
    ensures { result ≡ seen_on base metres }
{
    let class = class_by(
        metres,
        &[50, 100, 200, 300, 600, 1000, 1500, 2000, 2500],
        &[49, 49, 99, 99, 299, 399, 499, 499, 499],
    );
    match metres::base_figure(metres) {
        Some(figure) => if_foot(metres, metres::base_reading(figure), class),
        None => Seen::Nothing,
    }
}

// ---- VVVV

pub fn visibility_seen(metres: u32) -> Seen
    ensures { result ≡ seen_on visibility metres }
{
    let class = class_by(metres, &[800, 5000, 10000], &[49, 99, 999]);
    match metres::visibility_figure(metres) {
        Some(figure) => if_foot(metres, metres::visibility_reading(figure), class),
        None => Seen::Nothing,
    }
}

// ---- the runway visual range

pub fn runway_seen(metres: u32) -> Seen
    ensures { result ≡ seen_on runway metres }
{
    let class = class_by(metres, &[50, 400, 800, 2000, 2001], &[49, 24, 49, 99, 0]);
    match metres::runway_figure(metres) {
        Some(figure) => if_foot(metres, metres::runway_reading(figure), class),
        None => Seen::Nothing,
    }
}

// ---- 1690

pub fn cloud_seen(metres: u32) -> Seen
    ensures { result ≡ seen_on cloud metres }
{
    let class = class_by(metres, &[3000, 30000], &[29, 299]);
    match metres::cloud_figure(metres) {
        Some(figure) => if_foot(metres, metres::cloud_reading(figure), class),
        None => Seen::Nothing,
    }
}

// ---- 1079, in millimetres

pub fn depth_seen(millimetres: u32) -> Seen
    ensures { result ≡ seen_on depth millimetres }
{
    let class = class_by(millimetres, &[90, 100, 400], &[0, 9, 49]);
    match depth::depth_figure(millimetres) {
        Some(figure) => if_foot(millimetres, depth::depth_reading(figure), class),
        None => Seen::Nothing,
    }
}

// ---- 1677, by steps and by bands

pub fn steps_seen(metres: u32) -> Seen
    ensures { result ≡ seen_on layer_steps metres }
{
    let class = class_by(
        metres,
        &[1500, 1800, 9000, 21000, 21001],
        &[29, 299, 299, 1499, 0],
    );
    match layers::steps_figure(metres) {
        Some(figure) => if_foot(metres, layers::steps_reading(figure), class),
        None => Seen::Nothing,
    }
}

// The feet are those of 1600 h.
pub fn bands_seen(metres: u32) -> Seen
    ensures { result ≡ seen_on layer_bands metres }
{
    base_seen(metres)
}
