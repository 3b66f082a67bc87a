// What a group at one of the body's places says, and the body with it; what a group comes to by what it says.
ghost use Rattle.std.specs.Prelude.{◌≡◌, cond, not, ◌&&◌, ◌||◌, eqb};
ghost use Rattle.figures.specs.Quote.{bytes};
ghost use Rattle.shapes.specs.Pattern.{has_pattern};
ghost use Rattle.elements.specs.declared.kinds.Said.TheVariants as said;
ghost use Rattle.elements.specs.Answers.{unless_wrong};
ghost use Rattle.elements.specs.Body.{has_weather_or_nsw};
ghost use Rattle.elements.specs.Weather.{read_weather};
ghost use Rattle.body.specs.Said.{unless_refused, put_said, Says, weather_said};
ghost use Rattle.body.specs.Met.{met_as};

use crate::kinds::{Met, Saying};
use elements::kinds::Said;
use record::aerodrome::{Body, Cover, Sky};
use shapes::has_pattern;
use sky::read::{add_layer, read_sky};
use text::kinds::Refusal;
use weather::read::{add_weather, has_weather, read_weather};
use wind::read::{is_cavok, read_visibility, read_wind};

// NSW, where it may stand: before any weather, and not beside CAVOK.
fn say_nsw(may: bool, count: usize, cavok: bool) -> Said
    ensures { result ≡ unless_wrong (may && eqb count 0 && not cavok) said.Nsw }
{
    if may & (count == 0) & !cavok {
        Said::Nsw
    } else {
        Said::Refused(Refusal::Disagreement)
    }
}

// Weather, beside nothing that stands for it.
fn say_weather(forecast: bool, automatic: bool, beside: bool, g: &[u8]) -> Said
    ensures { result ≡ weather_said beside (read_weather forecast automatic g.now) }
{
    let read = read_weather(forecast, automatic, g);
    match read {
        Ok(w) => {
            if beside {
                Said::Refused(Refusal::Disagreement)
            } else {
                Said::Weather(w)
            }
        }
        Err(refusal) => Said::Refused(refusal),
    }
}

// Has the group the shape of weather, or is it NSW?
pub fn has_weather_or_nsw(g: &[u8]) -> bool
    ensures { result ≡ has_weather_or_nsw g.now }
{
    let nsw = has_pattern(g, b"NSW");
    let weather = has_weather(g);
    nsw | weather
}

// Weather or NSW.
fn say_weather_or_nsw(
    forecast: bool,
    may: bool,
    automatic: bool,
    count: usize,
    g: &[u8],
    b: Body,
) -> Said
    ensures { Says forecast may automatic 2 count g.now b result }
{
    let visibility = b.visibility;
    let cavok = is_cavok(visibility);
    if has_pattern(g, b"NSW") {
        say_nsw(may, count, cavok)
    } else {
        say_weather(forecast, automatic, cavok | b.nsw, g)
    }
}

// The group at a place of the body's row, where `count` groups stand; `may`: NSW may stand.
pub fn say(
    place: usize,
    forecast: bool,
    may: bool,
    automatic: bool,
    count: usize,
    g: &[u8],
    b: Body,
) -> Said
    ensures { Says forecast may automatic place count g.now b result }
{
    match place {
        0 => read_wind(forecast, g),
        1 => read_visibility(forecast, g),
        2 => say_weather_or_nsw(forecast, may, automatic, count, g, b),
        3 => {
            let visibility = b.visibility;
            let cavok = is_cavok(visibility);
            let sky = b.sky;
            read_sky(forecast, cavok, count, g, sky)
        }
        _ => Said::Refused(Refusal::Shape),
    }
}

// What stands alone leaves no layer.
fn alone(cover: Cover, s: Sky) -> Sky
    ensures { result ≡ record { cover = cover; layers = s.layers; count = 0 } }
{
    let layers = s.layers;
    Sky {
        cover,
        layers,
        count: 0,
    }
}

// The body with what a group says, where `count` groups stand at its place. What is no part of the body changes nothing of it, nor does a refusal.
pub fn put(said: Said, count: usize, b: Body) -> Body
    ensures { result ≡ put_said count said b }
{
    let mut a = b;
    match said {
        Said::Wind(x) => a.wind = x,
        Said::Visibility(x) => a.visibility = x,
        Said::Weather(x) => a.weathers = add_weather(count, b.weathers, x),
        Said::Nsw => a.nsw = true,
        Said::Layer(x) => a.sky = add_layer(count, b.sky, x),
        Said::Cover(x) => a.sky = alone(x, b.sky),
        _ => {}
    }
    a
}

// A group from `start` up to `end` that says this at its place, where `count` groups stand: it is refused, or taken.
pub fn meet_said(said: Said, place: usize, count: usize, start: usize, end: usize) -> Met
    ensures { result ≡ met_as start (unless_refused said (record { said = said; place = place; count = count; start = start; end = end })) }
{
    if let Said::Refused(refusal) = said {
        return Met::Refused { refusal, start };
    }
    Met::Says(Saying {
        said,
        place,
        count,
        start,
        end,
    })
}
