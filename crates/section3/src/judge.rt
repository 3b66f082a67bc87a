// What the writer judges of section 3 before it writes anything: the maximum, the minimum, the layers' count and the slots past it, then each layer, first
// that it says something and its ranges, refusal 11, and then that its height does not fall, refusal 7.
ghost use Rattle.std.specs.Prelude.{◌≡◌, [], ◌≤◌, take};
ghost use Rattle.section3.specs.Write.{judge_each, judge_layers, judge_section3};

use crate::heights::may_follow;
use record::surface::{CloudLayers, Section3};
use synop_groups_judge::judge::{judge_air, layer_fits};
use text::judge::judge;
use text::kinds::Refusal;

// The first n layers.
fn judge_each(layers: CloudLayers, n: usize) -> Result<(), Refusal>
    requires { n ≤ 4 }
    ensures { result ≡ judge_each [] (take n layers.items) }
{
    let items = layers.items;
    // By index: `may_follow` takes a copy of the array, and a loop over its items would lend the array meanwhile.
    for i in 0..n {
        let layer = items[i];
        judge(layer_fits(layer), may_follow(items, i, layer))?;
    }
    Ok(())
}

#[tactic(auto, unfolding(crate::specs::Write::judge_layers))]
fn judge_layers(layers: CloudLayers) -> Result<(), Refusal>
    ensures { result ≡ judge_layers layers }
{
    let n = layers.count;
    if n <= 4 {
        judge(layers.is_blank_from(n), true)?;
        judge_each(layers, n)
    } else {
        judge(false, true)
    }
}

#[tactic(auto, unfolding(crate::specs::Write::judge_section3))]
pub fn judge_section3(s: Section3) -> Result<(), Refusal>
    ensures { result ≡ judge_section3 s }
{
    judge_air(s.maximum)?;
    judge_air(s.minimum)?;
    judge_layers(s.layers)
}
