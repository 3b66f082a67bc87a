// How a body is written over a lent buffer, with what parts each group from the group before it. Every function answers the position after its text.
ghost use Rattle.std.specs.Prelude.{Bool, true, cond, ◌∷◌, []};
ghost use Rattle.figures.specs.Put.{Put};
ghost use Rattle.text.specs.Groups.{written};
ghost use Rattle.places.specs.Engine.{written as groups_at};
ghost use Rattle.elements.specs.Wind.{show_wind};
ghost use Rattle.elements.specs.Visibility.{show_visibility};
ghost use Rattle.elements.specs.Body.{show_weather_or_nsw, body_row};

use record::aerodrome::{Body, Visibility, Wind};
use sky::write::put_sky;
use text::write::put_if;
use weather_write::write::put_weathers;
use wind::write::{put_visibility, put_wind};

// A wind, unless it is left out.
pub fn put_wind_unless(out: &mut [u8], at: usize, left: bool, w: Wind) -> usize
    ensures { Put out.old at (written at (cond left [] (show_wind w ∷ []))) result out.new }
{
    if left { at } else { put_wind(out, at, w) }
}

// A visibility, unless it is left out.
pub fn put_visibility_unless(out: &mut [u8], at: usize, left: bool, v: Visibility) -> usize
    ensures { Put out.old at (written at (cond left [] (show_visibility v ∷ []))) result out.new }
{
    if left { at } else { put_visibility(out, at, v) }
}

// NSW, and the weathers.
pub fn put_weather_or_nsw(out: &mut [u8], at: usize, b: Body) -> usize
    ensures { Put out.old at (written at (show_weather_or_nsw b)) result out.new }
{
    let nsw = b.nsw;
    let weathers = b.weathers;
    let cleared = put_if(out, at, nsw, b"NSW");
    put_weathers(out, cleared, weathers)
}

// The body of a forecast: what is blank of it is not written.
pub fn put_body(out: &mut [u8], at: usize, b: Body) -> usize
    ensures { (required may automatic silent : Bool) → Put out.old at (written at (groups_at (body_row (record { forecast = true; required = required; may_nsw = may; automatic = automatic; silent = silent })) b)) result out.new }
{
    let wind = b.wind;
    let visibility = b.visibility;
    let view = visibility.is;
    let sky = b.sky;
    let blown = put_wind_unless(out, at, wind.is_blank(), wind);
    let seen = put_visibility_unless(out, blown, view.is_missing(), visibility);
    let weathered = put_weather_or_nsw(out, seen, b);
    put_sky(out, weathered, sky)
}
