// Reading section 3, from behind 333 on, up to a group that stops it or up to the end of the text.
ghost use Rattle.std.specs.Prelude.{◌≡◌};
ghost use Rattle.synop_groups.specs.Reads.{said_air};
ghost use Rattle.section3.specs.Row.{air_by, told_by, layer_at, add_layer};
ghost use Rattle.section3.specs.Step.{Says, told_onto, Section3Done};

use crate::heights::may_follow;
use crate::kinds::{Section3Read, Told};
use crate::row::decide;
use places::end_verdict;
use places::kinds::Turn;
use record::blank_surface::blank_section3;
use record::surface::{CloudLayer, CloudLayers, Section3};
use shapes::has_pattern;
use synop_groups::kinds::Said;
use synop_groups::read;
use text::kinds::{Cut, Refusal, Refused};

// What a group says, as section 3 takes it: a temperature is the minimum or the maximum.
fn told_by(lowest: bool, said: Said) -> Told
    ensures { result ≡ told_by (air_by lowest) said }
{
    match said {
        Said::Refused(refusal) => Told::Refused(refusal),
        Said::Air(air) => {
            if lowest {
                Told::Minimum(air)
            } else {
                Told::Maximum(air)
            }
        }
        Said::Layer(layer) => Told::Layer(layer),
        _ => Told::Nothing,
    }
}

// 8NChh after the layers before it. 8//// is no layer.
fn say_layer(layers: CloudLayers, g: &[u8]) -> Told
    ensures { result ≡ layer_at layers g.now }
{
    if has_pattern(g, b"8////") {
        return Told::Nothing;
    }
    let count = layers.count;
    if 4 <= count {
        return Told::Refused(Refusal::Limit);
    }
    let items = layers.items;
    let told = told_by(false, read::read_layer(g));
    match told {
        Told::Layer(layer) => {
            if may_follow(items, count, layer) {
                Told::Layer(layer)
            } else {
                Told::Refused(Refusal::Disagreement)
            }
        }
        _ => told,
    }
}

// 2sTTT: "s 0 or 1", so that 29UUU is no humidity here.
fn read_minimum(group: &[u8]) -> Said
    ensures { result ≡ said_air group.now }
{
    read::read_air(group)
}

// What the group says at its place, after these layers.
fn say_at(place: usize, layers: CloudLayers, g: &[u8]) -> Told
    ensures { Says place g.now layers result }
{
    match place {
        0 => told_by(false, read::read_air(g)),
        1 => told_by(true, read_minimum(g)),
        2 => say_layer(layers, g),
        _ => Told::Refused(Refusal::Shape),
    }
}

// One more layer; past the fourth there is no room.
fn add_layer(layers: CloudLayers, layer: CloudLayer) -> CloudLayers
    ensures { result ≡ add_layer layer layers }
{
    let count = layers.count;
    if count < 4 {
        let mut items = layers.items;
        items[count] = layer;
        CloudLayers {
            items,
            count: count + 1,
        }
    } else {
        layers
    }
}

// The section with what a group says; a refusal adds nothing.
fn with_told(told: Told, section3: Section3) -> Section3
    ensures { result ≡ told_onto told section3 }
{
    let mut s = section3;
    match told {
        Told::Nothing => {}
        Told::Refused(_) => {}
        Told::Maximum(x) => s.maximum = x,
        Told::Minimum(x) => s.minimum = x,
        Told::Layer(x) => {
            let layers = add_layer(s.layers, x);
            s.layers = layers;
        }
    }
    s
}

fn end_section(verdict: Result<usize, Refused>, section3: Section3) -> Section3Read
    ensures { result ≡ record { verdict = verdict; section3 = section3 } }
{
    Section3Read { verdict, section3 }
}

// The groups from a position of the text on, by position: where reading stops is the answer, so an iterator over groups would not do. The section is the loop's own.
pub fn read_section3(text: &[u8], from: usize) -> Section3Read
    ensures { Section3Done text.now from result }
{
    let mut section3 = blank_section3();
    let mut place = 0;
    let mut count = 0;
    let mut at = from;
    while at < text.len() {
        let Cut::Group { start, end } = text::next_group(text, at) else {
            return end_section(end_verdict(text, false), section3);
        };
        let g = text::part(text, start, end);
        let turn = decide(place, count, g);
        match turn {
            Turn::Halt => return end_section(Ok(start), section3),
            Turn::Refused(refusal) => {
                let place = start;
                return end_section(Err(Refused { refusal, place }), section3);
            }
            Turn::At {
                place: there,
                count: standing,
            } => {
                let told = say_at(there, section3.layers, g);
                if let Told::Refused(refusal) = told {
                    let place = start;
                    return end_section(Err(Refused { refusal, place }), section3);
                }
                section3 = with_told(told, section3);
                place = there;
                count = standing + 1;
                at = end;
            }
        }
    }
    end_section(end_verdict(text, false), section3)
}
