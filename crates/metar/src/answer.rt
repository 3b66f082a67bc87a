// The answer to a text: its verdict with the parts of its report.
ghost use Rattle.std.specs.Prelude.{◌≡◌};
ghost use Rattle.metar.specs.Read.{is_refused, reading};

use crate::kinds::Reading;
use record::aerodrome::{Metar, Observation, Trend};
use text::kinds::Refused;
use trend::kinds::Ahead;

pub fn is_refused(verdict: Result<usize, Refused>) -> bool
    ensures { result ≡ is_refused verdict }
{
    verdict.is_err()
}

pub fn reading_of(
    verdict: Result<usize, Refused>,
    observation: Observation,
    trend: Trend,
) -> Reading
    ensures { result ≡ reading verdict (record { observation = observation; trend = trend }) }
{
    Reading {
        verdict,
        report: Metar { observation, trend },
    }
}

// The same of what was read of a trend.
pub fn is_refused_ahead(ahead: Ahead) -> bool
    ensures { result ≡ is_refused ahead.verdict }
{
    is_refused(ahead.verdict)
}

pub fn reading_with(observation: Observation, ahead: Ahead) -> Reading
    ensures { result ≡ reading ahead.verdict (record { observation = observation; trend = ahead.trend }) }
{
    reading_of(ahead.verdict, observation, ahead.trend)
}
