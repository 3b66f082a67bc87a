// What the writer judges of a record before it writes anything: foreign fields first, then the others in written order.
ghost use Rattle.std.specs.Prelude.{◌≡◌, cond, not, ◌&&◌, Ok};
ghost use Rattle.text.specs.Judge.{and_then};
ghost use Rattle.section3.specs.Write.{judge_section3};
ghost use Rattle.record.specs.Missing.{is_missing};
ghost use Rattle.record.specs.SilentSurface.{no_sign, no_position};
ghost use Rattle.synop.specs.Write.{foreign_blank, foreign, judge_site, judge_section, judge_surface, judge_of};

use record::surface::{Section3, Site, Surface, Synop};
use section3::judge::judge_section3;
use synop_groups_judge::judge::{
    judge_air, judge_clock, judge_clouds, judge_indicators, judge_level, judge_moisture,
    judge_position, judge_pressure, judge_rainfall, judge_sign, judge_station, judge_tendency,
    judge_time, judge_weather, judge_wind,
};
use synop_row::kinds::Needs;
use synop_row::row::needs_of;
use text::kinds::Refusal;

// A land report has no call sign and no position, a ship no station number and no NIL.
fn site_suits(ship: bool, site: Site) -> bool
    ensures { result ≡ cond ship (is_missing site.station && not site.nil) (no_sign site.sign && no_position site.position) }
{
    let station = site.station;
    let nil = site.nil;
    let sign = site.sign;
    let position = site.position;
    if ship {
        station.is_none() & !nil
    } else {
        sign.is_blank() & position.is_blank()
    }
}

// Fields foreign to the kind, or to NIL, are blank.
fn foreign_blank(r: Synop) -> bool
    ensures { result ≡ foreign_blank r }
{
    let ship = r.ship;
    let site = r.site;
    let nil = site.nil;
    let surface = r.surface;
    let section3 = r.section3;
    site_suits(ship, site) & (!nil | (surface.is_blank() & section3.is_blank()))
}

fn judge_foreign(r: Synop) -> Result<(), Refusal>
    ensures { result ≡ foreign r }
{
    if foreign_blank(r) {
        Ok(())
    } else {
        Err(Refusal::Value)
    }
}

#[tactic(auto, unfolding(synop::specs::Write::judge_site))]
fn judge_site(r: Synop) -> Result<(), Refusal>
    ensures { result ≡ judge_site r }
{
    let site = r.site;
    if r.ship {
        judge_sign(site.sign)?;
        judge_time(site.time)?;
        judge_position(site.position)
    } else {
        judge_time(site.time)?;
        judge_station(site.station)
    }
}

#[tactic(auto, unfolding(synop::specs::Write::judge_section))]
fn judge_section(n: Needs, s: Surface) -> Result<(), Refusal>
    ensures { result ≡ judge_section n s }
{
    judge_air(s.air)?;
    judge_moisture(s.moisture)?;
    judge_pressure(s.pressure)?;
    judge_level(s.level)?;
    judge_tendency(s.tendency)?;
    judge_rainfall(!n.rain, s.rainfall)?;
    judge_weather(!n.weather, s.weather)?;
    judge_clouds(s.clouds)?;
    judge_clock(s.clock)
}

#[tactic(auto, unfolding(synop::specs::Write::judge_surface))]
fn judge_surface(s: Surface) -> Result<(), Refusal>
    ensures { result ≡ judge_surface s }
{
    judge_indicators(s.indicators)?;
    judge_wind(s.wind)?;
    judge_section(needs_of(s), s)
}

// A NIL report has no surface and no section 3 to judge.
fn judge_rest(nil: bool, s: Surface, x: Section3) -> Result<(), Refusal>
    ensures { result ≡ cond nil (Ok tt) (and_then (judge_surface s) (judge_section3 x)) }
{
    if nil {
        return Ok(());
    }
    judge_surface(s)?;
    judge_section3(x)
}

#[tactic(auto, unfolding(synop::specs::Write::judge_of))]
pub fn judge(r: Synop) -> Result<(), Refusal>
    ensures { result ≡ judge_of r }
{
    judge_foreign(r)?;
    judge_site(r)?;
    judge_rest(r.site.nil, r.surface, r.section3)
}
