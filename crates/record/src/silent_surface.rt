// Whether nothing is said in a SYNOP or SHIP, group by group and in the whole.
ghost use Rattle.std.specs.Prelude.{◌≡◌, drop};
ghost use Rattle.figures.specs.Figures.{every};
ghost use Rattle.record.specs.Missing.{is_missing, no_letters};
ghost use Rattle.record.specs.SilentSurface.{no_sign, no_position, no_time, no_sight, no_indicators, no_wind, no_moist, no_level, no_weather, no_clouds};
ghost use Rattle.record.specs.SilentSurface.{no_height, is_blank_layer, no_layers, no_site, no_surface, no_section3, is_blank_synop};

use crate::blank::{Blank, are_blank_from};
use crate::surface::{
    AtLevel, BaseHeight, CallSign, CloudLayer, CloudLayers, Clouds, Fall, Indicators, Moist,
    Observed, Position, PressureChange, Section3, Sight, Site, Surface, Synop, Time, Weather, Wind,
};

impl CallSign {
    // The slots from number `from` on are blank.
    pub fn is_blank_from(self, from: usize) -> bool
        ensures { result ≡ no_letters (drop from self.letters) }
    {
        are_blank_from(&self.letters, from)
    }

    pub fn is_blank(self) -> bool
        ensures { result ≡ no_sign self }
    {
        (self.length == 0) & self.is_blank_from(0)
    }
}

impl Position {
    pub fn is_blank(self) -> bool
        ensures { result ≡ no_position self }
    {
        self.latitude.is_none() && self.longitude.is_none()
    }
}

impl Time {
    pub fn is_blank(self) -> bool
        ensures { result ≡ no_time self }
    {
        self.day.is_none() && self.hour.is_none() && self.unit.is_none()
    }
}

impl Sight {
    pub fn is_missing(self) -> bool
        ensures { result ≡ no_sight self }
    {
        matches!(self, Sight::Missing)
    }
}

impl Indicators {
    pub fn is_blank(self) -> bool
        ensures { result ≡ no_indicators self }
    {
        self.rain.is_none()
            && self.weather.is_none()
            && self.base.is_none()
            && self.sight.is_missing()
    }
}

impl Wind {
    pub fn is_blank(self) -> bool
        ensures { result ≡ no_wind self }
    {
        self.cover.is_none() && self.direction.is_missing() && self.speed.is_missing()
    }
}

impl Moist {
    pub fn is_missing(self) -> bool
        ensures { result ≡ no_moist self }
    {
        matches!(self, Moist::Missing)
    }
}

impl AtLevel {
    pub fn is_missing(self) -> bool
        ensures { result ≡ no_level self }
    {
        matches!(self, AtLevel::Missing)
    }
}

impl Weather {
    pub fn is_blank(self) -> bool
        ensures { result ≡ no_weather self }
    {
        self.present.is_none() && self.past.is_none() && self.past2.is_none()
    }
}

impl Clouds {
    pub fn is_blank(self) -> bool
        ensures { result ≡ no_clouds self }
    {
        self.amount.is_none() && self.low.is_none() && self.middle.is_none() && self.high.is_none()
    }
}

impl BaseHeight {
    pub fn is_missing(self) -> bool
        ensures { result ≡ no_height self }
    {
        matches!(self, BaseHeight::Missing)
    }
}

impl CloudLayer {
    pub fn is_blank(self) -> bool
        ensures { result ≡ is_blank_layer self }
    {
        self.amount.is_none() && self.cloud.is_none() && self.height.is_missing()
    }
}

impl Blank for CloudLayer {
    ghost blank = { is_blank_layer };

    fn says_nothing(&self) -> bool {
        self.is_blank()
    }
}

impl CloudLayers {
    // The layers from number `from` on are blank.
    pub fn is_blank_from(self, from: usize) -> bool
        ensures { result ≡ every is_blank_layer (drop from self.items) }
    {
        are_blank_from(&self.items, from)
    }

    pub fn is_blank(self) -> bool
        ensures { result ≡ no_layers self }
    {
        (self.count == 0) & self.is_blank_from(0)
    }
}

impl Section3 {
    pub fn is_blank(self) -> bool
        ensures { result ≡ no_section3 self }
    {
        self.maximum.temperature.is_none()
            & self.minimum.temperature.is_none()
            & self.layers.is_blank()
    }
}

impl Surface {
    pub fn is_blank(self) -> bool
        ensures { result ≡ no_surface self }
    {
        let first = self.indicators.is_blank()
            & self.wind.is_blank()
            & self.air.temperature.is_none();
        let second = first
            & self.moisture.is.is_missing()
            & self.pressure.station.is_none()
            & self.level.is.is_missing();
        let third = second
            & self.tendency.is.is_none()
            & self.rainfall.is.is_none()
            & self.weather.is_blank();
        third & self.clouds.is_blank() & self.clock.is.is_none()
    }
}

impl Site {
    pub fn is_blank(self) -> bool
        ensures { result ≡ no_site self }
    {
        self.station.is_none()
            & self.sign.is_blank()
            & self.position.is_blank()
            & self.time.is_blank()
            & !self.nil
    }
}

impl Synop {
    #[tactic(auto, unfolding(crate::specs::SilentSurface::is_blank_synop))]
    pub fn is_blank(self) -> bool
        ensures { result ≡ is_blank_synop self }
    {
        !self.ship & self.site.is_blank() & self.surface.is_blank() & self.section3.is_blank()
    }
}
