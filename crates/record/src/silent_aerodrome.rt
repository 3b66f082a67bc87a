// Whether nothing is said in a METAR, SPECI or TAF, group by group and in the whole.
ghost use Rattle.std.specs.Prelude.{◌≡◌, drop};
ghost use Rattle.figures.specs.Figures.{every};
ghost use Rattle.record.specs.Missing.{is_missing};
ghost use Rattle.record.specs.SilentAerodrome.{no_unit, is_blank_wind, no_view, no_side, no_course, is_blank_runway, no_runways, no_depth, no_condition, is_blank_state, no_states};
ghost use Rattle.record.specs.SilentAerodrome.{is_blank_weather, no_weathers};
ghost use Rattle.record.specs.SilentAerodrome.{no_amount, no_convective, is_blank_layer, is_layers, no_sky, no_temperatures, no_station, no_instant, no_period, no_correction, no_opening};
ghost use Rattle.record.specs.SilentAerodrome.{is_blank_body, is_blank_change, no_changes, no_observation, is_blank_observation, no_hours, no_tendency, is_blank_trend_change, no_trend, is_blank_metar, is_present, is_same_edition, no_head, is_blank_taf};

use crate::aerodrome::{
    Amount, Body, Change, Changes, Condition, Convective, Correction, Course, Cover, Depth,
    Edition, Extremes, Hours, Instant, Layer, Leg, Metar, Observation, Opening, Period, Phenomena,
    Runway, RunwayState, RunwayStates, Runways, Side, Sky, Station, Taf, Temperatures, Tendency,
    Trend, TrendChange, Unit, View, Weather, Weathers, Wind,
};
use crate::blank::{Blank, are_blank_from};

// ---- wind, visibility, runways

impl Unit {
    pub fn is_missing(self) -> bool
        ensures { result ≡ no_unit self }
    {
        matches!(self, Unit::Missing)
    }
}

impl Wind {
    pub fn is_blank(self) -> bool
        ensures { result ≡ is_blank_wind self }
    {
        self.direction.is_missing()
            && self.speed.is_missing()
            && self.gust.is_missing()
            && self.unit.is_missing()
    }
}

impl View {
    pub fn is_missing(self) -> bool
        ensures { result ≡ no_view self }
    {
        matches!(self, View::Missing)
    }
}

impl Side {
    pub fn is_none(self) -> bool
        ensures { result ≡ no_side self }
    {
        matches!(self, Side::None)
    }
}

impl Course {
    pub fn is_none(self) -> bool
        ensures { result ≡ no_course self }
    {
        matches!(self, Course::None)
    }
}

impl Runway {
    pub fn is_blank(self) -> bool
        ensures { result ≡ is_blank_runway self }
    {
        self.number.is_none()
            && self.side.is_none()
            && self.range.is_none()
            && self.course.is_none()
    }
}

impl Blank for Runway {
    ghost blank = { is_blank_runway };

    fn says_nothing(&self) -> bool {
        self.is_blank()
    }
}

impl Runways {
    // The runways from number `from` on are blank.
    pub fn is_blank_from(self, from: usize) -> bool
        ensures { result ≡ every is_blank_runway (drop from self.items) }
    {
        are_blank_from(&self.items, from)
    }

    pub fn is_blank(self) -> bool
        ensures { result ≡ no_runways self }
    {
        (self.count == 0) & self.is_blank_from(0)
    }
}

// ---- runway states

impl Depth {
    pub fn is_missing(self) -> bool
        ensures { result ≡ no_depth self }
    {
        matches!(self, Depth::Missing)
    }
}

impl Condition {
    // Not cleared, and nothing is said of a deposit.
    pub fn is_blank(self) -> bool
        ensures { result ≡ no_condition self }
    {
        match self {
            Condition::Cleared => false,
            Condition::Covered {
                deposit,
                extent,
                depth,
                braking,
            } => {
                let seen = deposit.is_none() & extent.is_none();
                seen & depth.is_missing() & braking.is_none()
            }
        }
    }
}

impl RunwayState {
    pub fn is_blank(self) -> bool
        ensures { result ≡ is_blank_state self }
    {
        self.runway.is_none() & self.condition.is_blank()
    }
}

impl Blank for RunwayState {
    ghost blank = { is_blank_state };

    fn says_nothing(&self) -> bool {
        self.is_blank()
    }
}

impl RunwayStates {
    // The states from number `from` on are blank.
    pub fn is_blank_from(self, from: usize) -> bool
        ensures { result ≡ every is_blank_state (drop from self.items) }
    {
        are_blank_from(&self.items, from)
    }

    pub fn is_blank(self) -> bool
        ensures { result ≡ no_states self }
    {
        !self.snoclo & (self.count == 0) & self.is_blank_from(0)
    }
}

// ---- weather and sky

impl Weather {
    pub fn is_blank(self) -> bool
        ensures { result ≡ is_blank_weather self }
    {
        self.is.is_none()
    }
}

impl Blank for Weather {
    ghost blank = { is_blank_weather };

    fn says_nothing(&self) -> bool {
        self.is_blank()
    }
}

impl Weathers {
    // The weathers from number `from` on are blank.
    pub fn is_blank_from(self, from: usize) -> bool
        ensures { result ≡ every is_blank_weather (drop from self.items) }
    {
        are_blank_from(&self.items, from)
    }

    pub fn is_blank(self) -> bool
        ensures { result ≡ no_weathers self }
    {
        (self.count == 0) & self.is_blank_from(0)
    }
}

impl Amount {
    pub fn is_none(self) -> bool
        ensures { result ≡ no_amount self }
    {
        matches!(self, Amount::None)
    }
}

impl Convective {
    pub fn is_none(self) -> bool
        ensures { result ≡ no_convective self }
    {
        matches!(self, Convective::None)
    }
}

impl Layer {
    pub fn is_blank(self) -> bool
        ensures { result ≡ is_blank_layer self }
    {
        self.amount.is_none() && self.height.is_none() && self.convective.is_none()
    }
}

impl Blank for Layer {
    ghost blank = { is_blank_layer };

    fn says_nothing(&self) -> bool {
        self.is_blank()
    }
}

impl Cover {
    pub fn is_layers(self) -> bool
        ensures { result ≡ is_layers self }
    {
        matches!(self, Cover::Layers)
    }
}

impl Sky {
    // The layers from number `from` on are blank.
    pub fn is_blank_from(self, from: usize) -> bool
        ensures { result ≡ every is_blank_layer (drop from self.layers) }
    {
        are_blank_from(&self.layers, from)
    }

    pub fn is_blank(self) -> bool
        ensures { result ≡ no_sky self }
    {
        self.cover.is_layers() & (self.count == 0) & self.is_blank_from(0)
    }
}

// ---- temperatures, station and times

impl Temperatures {
    pub fn is_blank(self) -> bool
        ensures { result ≡ no_temperatures self }
    {
        self.air.is_none() && self.dew.is_none()
    }
}

impl Station {
    pub fn is_blank(self) -> bool
        ensures { result ≡ no_station self }
    {
        are_blank_from(&self.letters, 0)
    }
}

impl Instant {
    pub fn is_blank(self) -> bool
        ensures { result ≡ no_instant self }
    {
        self.day.is_none() & self.hour.is_none() & self.minute.is_none()
    }
}

impl Period {
    pub fn is_blank(self) -> bool
        ensures { result ≡ no_period self }
    {
        self.from.is_blank() & self.to.is_blank()
    }
}

impl Correction {
    pub fn is_none(self) -> bool
        ensures { result ≡ no_correction self }
    {
        matches!(self, Correction::None)
    }
}

impl Opening {
    pub fn is_none(self) -> bool
        ensures { result ≡ no_opening self }
    {
        matches!(self, Opening::None)
    }
}

// ---- the reports

impl Body {
    #[tactic(auto, unfolding(crate::specs::SilentAerodrome::is_blank_body))]
    pub fn is_blank(self) -> bool
        ensures { result ≡ is_blank_body self }
    {
        self.wind.is_blank()
            & self.visibility.is.is_missing()
            & self.weathers.is_blank()
            & !self.nsw
            & self.sky.is_blank()
    }
}

impl Change {
    pub fn is_blank(self) -> bool
        ensures { result ≡ is_blank_change self }
    {
        self.opening.is_none() & self.period.is_blank() & self.body.is_blank()
    }
}

impl Blank for Change {
    ghost blank = { is_blank_change };

    fn says_nothing(&self) -> bool {
        self.is_blank()
    }
}

impl Changes {
    // The changes from number `from` on are blank.
    pub fn is_blank_from(self, from: usize) -> bool
        ensures { result ≡ every is_blank_change (drop from self.items) }
    {
        are_blank_from(&self.items, from)
    }

    pub fn is_blank(self) -> bool
        ensures { result ≡ no_changes self }
    {
        (self.count == 0) & self.is_blank_from(0)
    }
}

impl Observation {
    // Nothing stands after the time.
    #[tactic(auto, unfolding(crate::specs::SilentAerodrome::no_observation))]
    pub fn has_no_observation(self) -> bool
        ensures { result ≡ no_observation self }
    {
        let seen = !self.automatic
            & self.body.is_blank()
            & self.variation.is.is_none()
            & self.runways.is_blank();
        let felt = seen & self.temperatures.is_blank() & self.qnh.is.is_none();
        felt & self.recents.is_blank() & self.states.is_blank()
    }

    #[tactic(auto, unfolding(crate::specs::SilentAerodrome::is_blank_observation))]
    pub fn is_blank(self) -> bool
        ensures { result ≡ is_blank_observation self }
    {
        let headed = !self.special
            & !self.corrected
            & self.station.is_blank()
            & self.time.is_blank();
        headed & !self.nil & self.has_no_observation()
    }
}

impl Hours {
    pub fn is_none(self) -> bool
        ensures { result ≡ no_hours self }
    {
        matches!(self, Hours::None)
    }
}

impl Tendency {
    pub fn is_none(self) -> bool
        ensures { result ≡ no_tendency self }
    {
        matches!(self, Tendency::None)
    }
}

impl TrendChange {
    pub fn is_blank(self) -> bool
        ensures { result ≡ is_blank_trend_change self }
    {
        self.tendency.is_none() & self.times.is.is_none() & self.body.is_blank()
    }
}

impl Blank for TrendChange {
    ghost blank = { is_blank_trend_change };

    fn says_nothing(&self) -> bool {
        self.is_blank()
    }
}

impl Trend {
    // The changes from number `from` on are blank.
    pub fn is_blank_from(self, from: usize) -> bool
        ensures { result ≡ every is_blank_trend_change (drop from self.items) }
    {
        are_blank_from(&self.items, from)
    }

    pub fn is_blank(self) -> bool
        ensures { result ≡ no_trend self }
    {
        !self.nosig & (self.count == 0) & self.is_blank_from(0)
    }
}

impl Metar {
    #[tactic(auto, unfolding(crate::specs::SilentAerodrome::is_blank_metar))]
    pub fn is_blank(self) -> bool
        ensures { result ≡ is_blank_metar self }
    {
        self.observation.is_blank() & self.trend.is_blank()
    }
}

impl Leg {
    // Nothing is said through the period.
    fn has_no_head(self) -> bool
        ensures { result ≡ no_head self }
    {
        let placed = self.correction.is_none() & self.station.is_blank() & self.time.is_blank();
        placed & !self.nil & self.period.is_blank() & !self.cancelled
    }
}

impl Edition {
    fn is_present(self) -> bool
        ensures { result ≡ is_present self }
    {
        matches!(self, Edition::Present)
    }

    pub fn is_same(self, other: Edition) -> bool
        ensures { result ≡ is_same_edition self other }
    {
        self == other
    }
}

impl Taf {
    #[tactic(auto, unfolding(crate::specs::SilentAerodrome::is_blank_taf))]
    pub fn is_blank(self) -> bool
        ensures { result ≡ is_blank_taf self }
    {
        self.edition.is_present()
            & self.leg.has_no_head()
            & self.leg.body.is_blank()
            & self.changes.is_blank()
    }
}
