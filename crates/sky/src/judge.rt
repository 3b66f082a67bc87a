// What the writer judges of a sky: the count and what stands past it, the cover, then each layer, first its ranges (refusal 11) and then its
// agreement (refusal 7).
ghost use Rattle.std.specs.Prelude.{◌≡◌, not, ◌&&◌, [], take};
ghost use Rattle.text.specs.Judge.{judge};
ghost use Rattle.elements.specs.Judge.{metres_fit};
ghost use Rattle.elements.specs.Sky.{not_above, cover_fits, judge_cover, has_amount, written_height, judge_layers, judge_sky};
ghost use Rattle.sky.specs.Judge.{last_height};

use crate::read::not_above;
use crate::write::cloud_number;
use elements::judge::metres_fit;
use record::aerodrome::{Cover, Layer, Sky};
use scales::metres::cloud_reading;
use text::judge::judge;
use text::kinds::Refusal;

fn cover_fits(forecast: bool, c: Cover) -> bool
    ensures { result ≡ cover_fits forecast c }
{
    match c {
        Cover::Layers => true,
        Cover::Clear => true,
        Cover::NoneSignificant => true,
        Cover::NoneDetected => true,
        Cover::Vertical(h) => metres_fit(forecast, h),
    }
}

fn judge_cover(forecast: bool, cavok: bool, c: Cover) -> Result<(), Refusal>
    ensures { result ≡ judge_cover forecast cavok c }
{
    judge(cover_fits(forecast, c), !cavok | c.is_layers())
}

// A height as it would be read back.
fn written_height(h: Option<u32>) -> Option<u32>
    ensures { result ≡ written_height h }
{
    cloud_reading(cloud_number(h?))
}

// A layer whose height would be written as `height`, where the last height before it is `last`.
fn judge_layer(
    forecast: bool,
    beside: bool,
    last: Option<u32>,
    l: Layer,
    height: Option<u32>,
) -> Result<(), Refusal>
    ensures { result ≡ judge (has_amount l.amount && metres_fit forecast l.height) (not beside && not_above last height) }
{
    judge(
        !l.amount.is_none() & metres_fit(forecast, l.height),
        !beside & not_above(last, height),
    )
}

// The last height so far, missing ones passed over.
fn last_height(before: Option<u32>, h: Option<u32>) -> Option<u32>
    ensures { result ≡ last_height before h }
{
    h.or(before)
}

// The first `count` layers: as heights rise, the last one so far is the greatest.
fn judge_layers(
    forecast: bool,
    beside: bool,
    layers: [Layer; 4],
    count: usize,
) -> Result<(), Refusal>
    ensures { result ≡ judge_layers forecast beside [] (take count layers) }
{
    let mut last = None;
    for l in layers.iter().take(count) {
        let height = written_height(l.height);
        judge_layer(forecast, beside, last, *l, height)?;
        last = last_height(last, height);
    }
    Ok(())
}

#[tactic(auto, unfolding(elements::specs::Sky::judge_sky))]
pub fn judge_sky(forecast: bool, cavok: bool, s: Sky) -> Result<(), Refusal>
    ensures { result ≡ judge_sky forecast cavok s }
{
    judge((s.count <= 4) & s.is_blank_from(s.count), true)?;
    judge_cover(forecast, cavok, s.cover)?;
    judge_layers(forecast, cavok | !s.cover.is_layers(), s.layers, s.count)
}
