// One line for each value or figure: what it is, an arrow, and what the library answers.
use crate::print;
use scales::kinds::{Degrees, Rain, Range};
use seen_values::kinds::Seen;
use seen_values::{metres, pressure};
use std::io;
use std::io::Write;

#[derive(Clone, Copy)]
pub enum Scale {
    Land,
    Sea,
    Base,
    Cloud,
    Visibility,
    Runway,
    Depth,
    LayerSteps,
    LayerBands,
    Pressure,
    Rain,
    Direction,
}

// How many figures a scale is written with.
fn width(s: Scale) -> usize {
    match s {
        Scale::Land => 2,
        Scale::Sea => 2,
        Scale::Base => 1,
        Scale::Cloud => 3,
        Scale::Visibility => 4,
        Scale::Runway => 4,
        Scale::Depth => 2,
        Scale::LayerSteps => 2,
        Scale::LayerBands => 2,
        Scale::Pressure => 4,
        Scale::Rain => 3,
        Scale::Direction => 2,
    }
}

fn whole(out: &mut impl Write, width: usize, f: Option<u32>) -> io::Result<()> {
    match f {
        Some(n) => print::figures(out, width, n),
        None => print::say(out, b"out of range"),
    }
}

fn say_range(out: &mut impl Write, r: Range) -> io::Result<()> {
    match r {
        Range::Below(n) => {
            print::say(out, b"M")?;
            print::figures(out, 4, n)
        }
        Range::Exact(n) => print::figures(out, 4, n),
        Range::Above(n) => {
            print::say(out, b"P")?;
            print::figures(out, 4, n)
        }
    }
}

fn runway(out: &mut impl Write, v: u32) -> io::Result<()> {
    match scales::metres::runway_figure(v) {
        Some(r) => say_range(out, r),
        None => print::say(out, b"out of range"),
    }
}

// A value as it is said: tenths for pressure and rain.
fn value(out: &mut impl Write, s: Scale, v: u32) -> io::Result<()> {
    match s {
        Scale::Pressure => print::tenths(out, v),
        Scale::Rain => print::tenths(out, v),
        _ => print::number(out, v),
    }
}

fn written(out: &mut impl Write, s: Scale, v: u32) -> io::Result<()> {
    let w = width(s);
    match s {
        Scale::Land => whole(out, w, scales::metres::land_figure(v)),
        Scale::Sea => whole(out, w, scales::metres::sea_figure(v)),
        Scale::Base => whole(out, w, scales::metres::base_figure(v)),
        Scale::Cloud => whole(out, w, scales::metres::cloud_figure(v)),
        Scale::Visibility => whole(out, w, scales::metres::visibility_figure(v)),
        Scale::Runway => runway(out, v),
        Scale::Depth => whole(out, w, scales::depth::depth_figure(v)),
        Scale::LayerSteps => whole(out, w, scales::layers::steps_figure(v)),
        Scale::LayerBands => whole(out, w, scales::layers::bands_figure(v)),
        Scale::Pressure => whole(out, w, scales::pressure::pressure_figure(v)),
        Scale::Rain => whole(out, w, scales::rain::rain_figure(Rain::Tenths(v))),
        Scale::Direction => whole(out, w, scales::direction::direction_figure(v)),
    }
}

fn read(out: &mut impl Write, s: Scale, r: Option<u32>) -> io::Result<()> {
    match r {
        Some(n) => value(out, s, n),
        None => print::say(out, b"unused"),
    }
}

fn read_rain(out: &mut impl Write, f: u32) -> io::Result<()> {
    match scales::rain::rain_reading(f) {
        Some(Rain::Trace) => print::say(out, b"trace"),
        Some(Rain::Tenths(t)) => print::tenths(out, t),
        None => print::say(out, b"unused"),
    }
}

fn reading(out: &mut impl Write, s: Scale, f: u32) -> io::Result<()> {
    match s {
        Scale::Land => read(out, s, scales::metres::land_reading(f)),
        Scale::Sea => read(out, s, scales::metres::sea_reading(f)),
        Scale::Base => read(out, s, scales::metres::base_reading(f)),
        Scale::Cloud => read(out, s, scales::metres::cloud_reading(f)),
        Scale::Visibility => read(out, s, scales::metres::visibility_reading(f)),
        Scale::Runway => read(out, s, scales::metres::runway_reading(Range::Exact(f))),
        Scale::Depth => read(out, s, scales::depth::depth_reading(f)),
        Scale::LayerSteps => read(out, s, scales::layers::steps_reading(f)),
        Scale::LayerBands => read(out, s, scales::layers::bands_reading(f)),
        Scale::Pressure => read(out, s, scales::pressure::pressure_reading(f)),
        Scale::Rain => read_rain(out, f),
        Scale::Direction => read(out, s, scales::direction::direction_reading(f)),
    }
}

// Values, and the figures that they are written as.
pub fn values(out: &mut impl Write, s: Scale, list: &[u32]) -> io::Result<()> {
    for v in list {
        value(out, s, *v)?;
        print::arrow(out)?;
        written(out, s, *v)?;
        print::line_end(out)?;
    }
    Ok(())
}

// Figures, and their readings.
pub fn figures(out: &mut impl Write, s: Scale, list: &[u32]) -> io::Result<()> {
    let w = width(s);
    for f in list {
        print::figures(out, w, *f)?;
        print::arrow(out)?;
        reading(out, s, *f)?;
        print::line_end(out)?;
    }
    Ok(())
}

fn seen(s: Scale, m: u32) -> Seen {
    match s {
        Scale::Land => metres::land_seen(m),
        Scale::Sea => metres::sea_seen(m),
        Scale::Base => metres::base_seen(m),
        Scale::Cloud => metres::cloud_seen(m),
        Scale::Visibility => metres::visibility_seen(m),
        Scale::Runway => metres::runway_seen(m),
        Scale::Depth => metres::depth_seen(m),
        Scale::LayerSteps => metres::steps_seen(m),
        Scale::LayerBands => metres::bands_seen(m),
        Scale::Pressure => pressure::pressure_seen(m),
        _ => Seen::Nothing,
    }
}

fn say_seen(out: &mut impl Write, s: Scale, seen: Seen) -> io::Result<()> {
    match seen {
        Seen::Between { least, greatest } => {
            value(out, s, least)?;
            print::say(out, b" to ")?;
            value(out, s, greatest)
        }
        Seen::From { least } => {
            value(out, s, least)?;
            print::say(out, b" or more")
        }
        Seen::Nothing => print::say(out, b"nothing"),
    }
}

// Readings, and what the observer may have seen.
pub fn readings(out: &mut impl Write, s: Scale, list: &[u32]) -> io::Result<()> {
    for m in list {
        value(out, s, *m)?;
        print::arrow(out)?;
        say_seen(out, s, seen(s, *m))?;
        print::line_end(out)?;
    }
    Ok(())
}

// A runway range as it is written, and its reading.
pub fn range(out: &mut impl Write, r: Range) -> io::Result<()> {
    say_range(out, r)?;
    print::arrow(out)?;
    read(out, Scale::Runway, scales::metres::runway_reading(r))?;
    print::line_end(out)
}

pub fn trace(out: &mut impl Write) -> io::Result<()> {
    print::say(out, b"trace")?;
    print::arrow(out)?;
    whole(out, 3, scales::rain::rain_figure(Rain::Trace))?;
    print::line_end(out)
}

fn mark(out: &mut impl Write, minus: bool) -> io::Result<()> {
    if minus {
        print::say(out, b"M")?;
    }
    Ok(())
}

fn temperature(out: &mut impl Write, t: i32) -> io::Result<()> {
    print::signed(out, t)?;
    print::arrow(out)?;
    match scales::degrees::degrees_figure(t) {
        Some(Degrees { minus, whole }) => {
            mark(out, minus)?;
            print::figures(out, 2, whole)?;
        }
        None => print::say(out, b"out of range")?,
    }
    print::line_end(out)
}

// Temperatures in tenths, and the whole degrees that they are written as.
pub fn temperatures(out: &mut impl Write, list: &[i32]) -> io::Result<()> {
    for t in list {
        temperature(out, *t)?;
    }
    Ok(())
}

fn read_tenths(out: &mut impl Write, t: Option<i32>) -> io::Result<()> {
    print::arrow(out)?;
    match t {
        Some(n) => print::signed(out, n)?,
        None => print::say(out, b"unused")?,
    }
    print::line_end(out)
}

// Whole degrees as they are written, and their reading.
pub fn degrees(out: &mut impl Write, minus: bool, whole: u32) -> io::Result<()> {
    mark(out, minus)?;
    print::figures(out, 2, whole)?;
    read_tenths(out, scales::degrees::degrees_reading(minus, whole))
}

// A sign's figure and three figures, and their reading.
pub fn signed(out: &mut impl Write, sign: u32, n: u32) -> io::Result<()> {
    print::figures(out, 1, sign)?;
    print::figures(out, 3, n)?;
    read_tenths(out, scales::degrees::signed_reading(sign, n))
}
