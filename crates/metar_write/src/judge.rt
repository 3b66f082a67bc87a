// What the writer judges of a METAR or SPECI before it writes anything: that no field foreign to it is told, then each group in written order.
ghost use Rattle.std.specs.Prelude.{◌≡◌};
ghost use Rattle.metar.specs.Write.{judge_observation, judge_of};

use crate::trends::judge_trend;
use aerodrome_groups::judge::{
    judge_qnh, judge_runways, judge_station, judge_temperatures, judge_time,
};
use body::judge::{sky_judged, visibility_judged, weather_judged, wind_judged};
use record::aerodrome::{Metar, Observation};
use runway_states::judge::judge_states;
use text::judge::judge as judge_pair;
use text::kinds::Refusal;
use weather_write::judge::judge_recents;
use wind::judge::judge_variation;

fn judge_observation(r: Observation) -> Result<(), Refusal>
    ensures { result ≡ judge_observation r }
{
    let body = r.body;
    wind_judged(false, true, body)?;
    judge_variation(r.variation)?;
    visibility_judged(false, true, body)?;
    judge_runways(r.runways)?;
    weather_judged(false, false, r.automatic, body)?;
    sky_judged(false, body)?;
    judge_temperatures(r.temperatures)?;
    judge_qnh(r.qnh)?;
    judge_recents(r.automatic, r.recents)?;
    judge_states(r.states)
}

// Foreign to a NIL report is what stands after its time, and there is nothing more to judge of it.
#[tactic(auto, unfolding(metar::specs::Write::judge_of, metar::specs::Write::judge_head))]
pub fn judge(r: Metar) -> Result<(), Refusal>
    ensures { result ≡ judge_of r }
{
    let observation = r.observation;
    let bare = observation.has_no_observation() & r.trend.is_blank();
    judge_pair(!observation.nil | bare, true)?;
    judge_station(observation.station)?;
    judge_time(observation.time)?;
    if observation.nil {
        return Ok(());
    }
    judge_observation(observation)?;
    judge_trend(r.trend)
}
