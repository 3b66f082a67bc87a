// How weather is written over a lent buffer, with what parts each group from the group before it. Every function answers the position after its text.
// What a buffer has no room for is not written, so that a caller may judge the room afterwards.
ghost use Rattle.std.specs.Prelude.{cond, ◌∷◌, [], map, take};
ghost use Rattle.figures.specs.Put.{Put};
ghost use Rattle.figures.specs.Quote.{bytes};
ghost use Rattle.text.specs.Groups.{written};
ghost use Rattle.elements.specs.Weather.{code_text, sign_text, phenomena_text, show_weathers, show_recents};
ghost use Rattle.weather_write.specs.Three.{shown_as};

use figures::put::{put_byte, put_text};
use record::aerodrome::{Code, Intensity, Phenomena, Weather, Weathers};
use text::write::open_group;

pub fn put_code(out: &mut [u8], at: usize, c: Option<Code>) -> usize
    ensures { Put out.old at (code_text c) result out.new }
{
    match c {
        None => at,
        Some(Code { first, second }) => {
            let begun = put_byte(out, at, first);
            put_byte(out, begun, second)
        }
    }
}

#[tactic(auto, unfolding(figures::specs::Put::after, figures::specs::Put::splice))]
fn put_intensity(out: &mut [u8], at: usize, i: Intensity) -> usize
    ensures { Put out.old at (sign_text i) result out.new }
{
    match i {
        Intensity::None => at,
        Intensity::Light => put_byte(out, at, b'-'),
        Intensity::Heavy => put_byte(out, at, b'+'),
        Intensity::Vicinity => put_text(out, at, b"VC"),
    }
}

fn put_phenomena(out: &mut [u8], at: usize, p: Option<Phenomena>) -> usize
    ensures { Put out.old at (phenomena_text p) result out.new }
{
    match p {
        None => put_text(out, at, b"//"),
        Some(p) => {
            let signed = put_intensity(out, at, p.intensity);
            let described = put_code(out, signed, p.descriptor);
            let first = put_code(out, described, p.first);
            let second = put_code(out, first, p.second);
            put_code(out, second, p.third)
        }
    }
}

// What opens a recent weather.
#[tactic(auto, unfolding(figures::specs::Put::after, figures::specs::Put::splice))]
fn put_recent(out: &mut [u8], at: usize, recent: bool) -> usize
    ensures { Put out.old at (cond recent (bytes "RE") []) result out.new }
{
    if recent { put_text(out, at, b"RE") } else { at }
}

// A weather, where one stands.
fn put_weather(out: &mut [u8], at: usize, stands: bool, recent: bool, w: Weather) -> usize
    ensures { Put out.old at (written at (cond stands (shown_as recent w ∷ []) [])) result out.new }
{
    if stands {
        let is = w.is;
        let opened = open_group(out, at);
        let begun = put_recent(out, opened, recent);
        put_phenomena(out, begun, is)
    } else {
        at
    }
}

// The first `count`, of three.
fn put_each(out: &mut [u8], at: usize, recent: bool, ws: Weathers) -> usize
    ensures { Put out.old at (written at (map (shown_as recent) (take ws.count ws.items))) result out.new }
{
    let items = ws.items;
    let count = ws.count;
    let first = put_weather(out, at, 0 < count, recent, items[0]);
    let second = put_weather(out, first, 1 < count, recent, items[1]);
    put_weather(out, second, 2 < count, recent, items[2])
}

#[tactic(auto, unfolding(elements::specs::Weather::show_weathers))]
pub fn put_weathers(out: &mut [u8], at: usize, ws: Weathers) -> usize
    ensures { Put out.old at (written at (show_weathers ws)) result out.new }
{
    put_each(out, at, false, ws)
}

#[tactic(auto, unfolding(elements::specs::Weather::show_recents))]
pub fn put_recents(out: &mut [u8], at: usize, ws: Weathers) -> usize
    ensures { Put out.old at (written at (show_recents ws)) result out.new }
{
    put_each(out, at, true, ws)
}
