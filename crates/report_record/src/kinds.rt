// The record of a report of any kind, what reading a text answers, and which of two texts stands.
ghost use Rattle.std.specs.Prelude.{◌≡◌};
ghost use Rattle.report_record.specs.Kinship.{is_observed, is_forecast};

use record::aerodrome::{Metar, Taf};
use record::surface::Synop;
use text::kinds::{Refusal, Refused};

// What a report is: SYNOP or SHIP, METAR or SPECI, TAF.
#[derive(Clone, Copy)]
pub enum Kind {
    Missing,
    Surface,
    Observed,
    Forecast,
}

impl Kind {
    // METAR or SPECI.
    pub fn is_observed(self) -> bool
        ensures { result ≡ is_observed self }
    {
        matches!(self, Kind::Observed)
    }

    // TAF.
    pub fn is_forecast(self) -> bool
        ensures { result ≡ is_forecast self }
    {
        matches!(self, Kind::Forecast)
    }
}

// What a report says, a part for each kind; the parts that its kind does not have are blank.
#[derive(Clone, Copy)]
pub struct Report {
    pub kind: Kind,
    pub surface: Synop,
    pub observed: Metar,
    pub forecast: Taf,
}

// The kind that a text's first group names, AAXX, BBXX, METAR or SPECI, TAF, and where the groups behind it begin; or the text's refusal, 1, 2 or 3.
#[derive(Clone, Copy)]
pub enum Name {
    Surface { ship: bool, at: usize },
    Observed { special: bool, at: usize },
    Forecast { at: usize },
    Refused { refusal: Refusal, place: usize },
}

#[derive(Clone, Copy)]
pub struct Reading {
    pub verdict: Result<usize, Refused>,
    pub report: Report,
}

#[derive(Clone, Copy)]
pub enum Stands {
    First,
    Second,
    Neither,
}
