// A record written as its canonical text, over a lent buffer: all of it, or nothing.
ghost use Rattle.std.specs.Prelude.{◌≡◌, cond, ◌∷◌, [], ◌++◌, length, Ok};
ghost use Rattle.figures.specs.Put.{Put};
ghost use Rattle.figures.specs.Quote.{bytes};
ghost use Rattle.text.specs.Groups.{written};
ghost use Rattle.places.specs.Engine.{written as groups_at};
ghost use Rattle.synop_groups.specs.Shows.{show_time, show_station, show_sign, show_latitude, show_longitude};
ghost use Rattle.synop_row.specs.Row.{row};
ghost use Rattle.section3.specs.Write.{show_section3};
ghost use Rattle.synop.specs.Write.{judge_of, site_groups, surface_groups, groups_of, written_of, buffer_of};

use crate::judge::judge;
use record::surface::{Section3, Site, Surface, Synop};
use section3::write::put_section3;
use synop_groups_write::write::{
    put_air, put_clock, put_clouds, put_indicators, put_latitude, put_level, put_longitude,
    put_moisture, put_pressure, put_rainfall, put_sign, put_speed, put_station, put_tendency,
    put_time, put_weather, put_wind,
};
use synop_row::kinds::Needs;
use synop_row::row::needs_of;
use text::kinds::Refusal;
use text::write::{close_report, deliver, put_group};

// AAXX YYGGiw IIiii
fn put_land(out: &mut [u8], site: Site) -> usize
    ensures { Put out.old 0 (written 0 (bytes "AAXX" ∷ show_time site.time ∷ show_station site.station ∷ [])) result out.new }
{
    let time = site.time;
    let station = site.station;
    let named = put_group(out, 0, b"AAXX");
    let timed = put_time(out, named, time);
    put_station(out, timed, station)
}

// BBXX, a call sign, YYGGiw 99LaLaLa QcLoLoLoLo
fn put_ship(out: &mut [u8], site: Site) -> usize
    ensures { Put out.old 0 (written 0 (bytes "BBXX" ∷ show_sign site.sign ∷ show_time site.time ∷ show_latitude site.position ∷ show_longitude site.position ∷ [])) result out.new }
{
    let sign = site.sign;
    let time = site.time;
    let position = site.position;
    let named = put_group(out, 0, b"BBXX");
    let called = put_sign(out, named, sign);
    let timed = put_time(out, called, time);
    let placed = put_latitude(out, timed, position);
    put_longitude(out, placed, position)
}

fn put_site(out: &mut [u8], r: Synop) -> usize
    ensures { Put out.old 0 (written 0 (site_groups r)) result out.new }
{
    let ship = r.ship;
    let site = r.site;
    if ship {
        put_ship(out, site)
    } else {
        put_land(out, site)
    }
}

// 00fff and the groups 1 to 9.
fn put_section(out: &mut [u8], at: usize, n: Needs, s: Surface) -> usize
    ensures { Put out.old at (written at (groups_at (row n) s)) result out.new }
{
    let rain_due = n.rain;
    let weather_due = n.weather;
    let wind = s.wind;
    let air = s.air;
    let moisture = s.moisture;
    let pressure = s.pressure;
    let level = s.level;
    let tendency = s.tendency;
    let rainfall = s.rainfall;
    let weather = s.weather;
    let clouds = s.clouds;
    let clock = s.clock;
    let to0 = put_speed(out, at, wind);
    let to1 = put_air(out, to0, air);
    let to2 = put_moisture(out, to1, moisture);
    let to3 = put_pressure(out, to2, pressure);
    let to4 = put_level(out, to3, level);
    let to5 = put_tendency(out, to4, tendency);
    let to6 = put_rainfall(out, to5, rain_due, rainfall);
    let to7 = put_weather(out, to6, weather_due, weather);
    let to8 = put_clouds(out, to7, clouds);
    put_clock(out, to8, clock)
}

fn put_surface(out: &mut [u8], at: usize, s: Surface) -> usize
    ensures { Put out.old at (written at (surface_groups s)) result out.new }
{
    let indicators = s.indicators;
    let wind = s.wind;
    let needs = needs_of(s);
    let indicated = put_indicators(out, at, indicators);
    let blown = put_wind(out, indicated, wind);
    put_section(out, blown, needs, s)
}

// NIL, or the surface and section 3.
fn put_rest(out: &mut [u8], at: usize, nil: bool, s: Surface, x: Section3) -> usize
    ensures { Put out.old at (written at (cond nil (bytes "NIL" ∷ []) (surface_groups s ++ show_section3 x))) result out.new }
{
    if nil {
        put_group(out, at, b"NIL")
    } else {
        let told = put_surface(out, at, s);
        put_section3(out, told, x)
    }
}

// The whole report, its "=" too.
fn put_report(out: &mut [u8], r: Synop) -> usize
    ensures { Put out.old 0 (written 0 (groups_of r) ++ (61 ∷ [])) result out.new }
{
    let site = r.site;
    let nil = site.nil;
    let surface = r.surface;
    let section3 = r.section3;
    let placed = put_site(out, r);
    let told = put_rest(out, placed, nil, surface, section3);
    close_report(out, told)
}

// A record that is judged fine: its text, at most 145 bytes, is made first, so that its length is known before the lent buffer is touched.
fn write_fine(r: Synop, out: &mut [u8]) -> Result<usize, Refusal>
    requires { judge_of r ≡ Ok tt }
    ensures { (result ≡ written_of r (length out.old)) × (out.new ≡ buffer_of r out.old) }
{
    let mut text = [0u8; 160];
    let end = put_report(&mut text, r);
    deliver(&text[..end], out)
}

#[tactic(auto, unfolding(synop::specs::Write::written_of, synop::specs::Write::buffer_of))]
pub fn write(r: Synop, out: &mut [u8]) -> Result<usize, Refusal>
    ensures { (result ≡ written_of r (length out.old)) × (out.new ≡ buffer_of r out.old) }
{
    judge(r)?;
    write_fine(r, out)
}
