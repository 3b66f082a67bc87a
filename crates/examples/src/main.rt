// Prints the marked rows of document 01 and boundary values of every scale, both ways: a value and the figure that it is written as, and a figure
// and the reading that it has; and of some readings what the observer may have seen.
#![tactic(auto)]

mod print;
mod rows;

use rows::Scale;
use scales::kinds::Range;
use std::io;
use std::io::Write;

fn land(out: &mut impl Write) -> io::Result<()> {
    print::heading(out, b"4377 land, m")?;
    rows::values(
        out,
        Scale::Land,
        &[
            0, 99, 100, 4999, 5000, 5999, 6000, 30000, 34999, 35000, 70000, 70001, 99999, 100000,
        ],
    )?;
    rows::figures(
        out,
        Scale::Land,
        &[0, 1, 49, 50, 51, 55, 56, 80, 81, 88, 89, 90],
    )
}

fn sea(out: &mut impl Write) -> io::Result<()> {
    print::heading(out, b"4377 sea, m")?;
    rows::values(
        out,
        Scale::Sea,
        &[
            0, 49, 50, 199, 200, 499, 500, 999, 1000, 3999, 4000, 49999, 50000, 100000,
        ],
    )?;
    rows::figures(
        out,
        Scale::Sea,
        &[89, 90, 91, 92, 93, 94, 95, 96, 97, 98, 99, 0],
    )
}

fn bases(out: &mut impl Write) -> io::Result<()> {
    print::heading(out, b"1600 h, m")?;
    rows::values(
        out,
        Scale::Base,
        &[
            0, 49, 50, 99, 100, 299, 300, 599, 600, 2499, 2500, 99999, 100000,
        ],
    )?;
    rows::figures(out, Scale::Base, &[0, 1, 2, 3, 4, 5, 6, 7, 8, 9])
}

fn clouds(out: &mut impl Write) -> io::Result<()> {
    print::heading(out, b"1690, m")?;
    rows::values(
        out,
        Scale::Cloud,
        &[
            0, 29, 30, 2999, 3000, 3299, 3300, 3599, 3600, 29699, 29700, 29999, 30000, 100000,
        ],
    )?;
    rows::figures(
        out,
        Scale::Cloud,
        &[0, 1, 99, 100, 101, 110, 111, 120, 980, 990, 998, 999],
    )
}

fn visibilities(out: &mut impl Write) -> io::Result<()> {
    print::heading(out, b"VVVV, m")?;
    rows::values(
        out,
        Scale::Visibility,
        &[
            0, 49, 50, 370, 799, 800, 4999, 5000, 5700, 8999, 9000, 9999, 10000, 100000,
        ],
    )?;
    rows::figures(
        out,
        Scale::Visibility,
        &[0, 25, 50, 750, 800, 850, 4900, 5000, 5500, 9000, 9998, 9999],
    )
}

fn runways(out: &mut impl Write) -> io::Result<()> {
    print::heading(out, b"RVR, m")?;
    rows::values(
        out,
        Scale::Runway,
        &[
            0, 49, 50, 74, 75, 399, 400, 449, 450, 799, 800, 2000, 2001, 100000,
        ],
    )?;
    rows::figures(
        out,
        Scale::Runway,
        &[0, 25, 50, 60, 375, 400, 425, 450, 800, 850, 2000, 2100],
    )?;
    rows::range(out, Range::Below(50))?;
    rows::range(out, Range::Below(100))?;
    rows::range(out, Range::Above(2000))?;
    rows::range(out, Range::Above(1500))
}

fn depths(out: &mut impl Write) -> io::Result<()> {
    print::heading(out, b"1079, mm")?;
    rows::values(
        out,
        Scale::Depth,
        &[0, 1, 89, 90, 91, 99, 100, 149, 150, 399, 400, 99999, 100000],
    )?;
    rows::figures(out, Scale::Depth, &[0, 1, 89, 90, 91, 92, 93, 97, 98, 99])
}

fn layers(out: &mut impl Write) -> io::Result<()> {
    print::heading(out, b"1677 by steps")?;
    rows::values(
        out,
        Scale::LayerSteps,
        &[
            0, 29, 30, 1499, 1500, 1799, 1800, 2099, 8999, 9000, 10499, 10500, 20999, 21000, 21001,
            99999, 100000,
        ],
    )?;
    rows::figures(
        out,
        Scale::LayerSteps,
        &[0, 1, 50, 51, 55, 56, 80, 81, 88, 89, 90, 99],
    )?;
    print::heading(out, b"1677 by bands")?;
    rows::values(
        out,
        Scale::LayerBands,
        &[0, 49, 50, 99, 599, 600, 2499, 2500, 99999, 100000],
    )?;
    rows::figures(out, Scale::LayerBands, &[0, 9, 89, 90, 91, 95, 98, 99])
}

fn temperatures(out: &mut impl Write) -> io::Result<()> {
    print::heading(out, b"aerodrome temperature, degrees")?;
    rows::temperatures(
        out,
        &[
            -996, -995, -994, -15, -14, -6, -5, -4, -1, 0, 4, 5, 25, 994, 995,
        ],
    )?;
    rows::degrees(out, true, 99)?;
    rows::degrees(out, true, 1)?;
    rows::degrees(out, true, 0)?;
    rows::degrees(out, false, 0)?;
    rows::degrees(out, false, 3)?;
    rows::degrees(out, false, 99)?;
    print::heading(out, b"sTTT, degrees")?;
    rows::signed(out, 0, 0)?;
    rows::signed(out, 0, 53)?;
    rows::signed(out, 1, 0)?;
    rows::signed(out, 1, 1)?;
    rows::signed(out, 1, 999)?;
    rows::signed(out, 2, 53)
}

fn pressures(out: &mut impl Write) -> io::Result<()> {
    print::heading(out, b"Q, hPa")?;
    rows::values(
        out,
        Scale::Pressure,
        &[
            0, 9, 10, 10129, 10130, 10139, 10140, 99989, 99990, 99999, 100000,
        ],
    )?;
    rows::figures(
        out,
        Scale::Pressure,
        &[0, 1, 999, 1012, 1013, 1014, 9998, 9999],
    )
}

fn rains(out: &mut impl Write) -> io::Result<()> {
    print::heading(out, b"RRR, mm")?;
    rows::trace(out)?;
    rows::values(
        out,
        Scale::Rain,
        &[
            0, 1, 9, 10, 14, 15, 24, 25, 9874, 9875, 9884, 9885, 9890, 99999, 100000,
        ],
    )?;
    rows::figures(
        out,
        Scale::Rain,
        &[0, 1, 2, 987, 988, 989, 990, 991, 998, 999],
    )
}

fn directions(out: &mut impl Write) -> io::Result<()> {
    print::heading(out, b"direction, degrees")?;
    rows::values(
        out,
        Scale::Direction,
        &[0, 4, 5, 14, 15, 94, 95, 180, 344, 345, 354, 355, 359, 360],
    )?;
    rows::figures(out, Scale::Direction, &[0, 1, 2, 9, 18, 34, 35, 36, 37])
}

// What the observer may have seen where a number is read.
fn seen(out: &mut impl Write) -> io::Result<()> {
    print::heading(out, b"what may have been seen")?;
    rows::readings(out, Scale::Land, &[0, 5000, 6000, 70000, 70001])?;
    rows::readings(out, Scale::Sea, &[0, 4000, 50000])?;
    rows::readings(out, Scale::Base, &[300, 2000, 2500])?;
    rows::readings(out, Scale::Cloud, &[2970, 3000, 3300, 30000])?;
    rows::readings(out, Scale::Visibility, &[750, 4000, 4050, 9000, 10000])?;
    rows::readings(out, Scale::Runway, &[0, 50, 375, 2000, 2001])?;
    rows::readings(out, Scale::Depth, &[0, 89, 90, 91, 100, 350, 400])?;
    rows::readings(
        out,
        Scale::LayerSteps,
        &[0, 1, 1470, 1500, 1800, 9000, 10500, 21000, 21001],
    )?;
    rows::readings(out, Scale::LayerBands, &[0, 50, 2000, 2500, 2501])?;
    rows::readings(out, Scale::Pressure, &[10130, 10135, 99990])
}

// The rows marked * in document 01, in its order.
fn marked(out: &mut impl Write) -> io::Result<()> {
    print::heading(out, b"marked rows")?;
    rows::values(out, Scale::Land, &[5999, 6000, 70000, 70001])?;
    rows::values(out, Scale::Base, &[599, 600])?;
    rows::values(out, Scale::Visibility, &[370, 799, 5700, 9999, 10000])?;
    rows::values(out, Scale::Cloud, &[3299, 3300, 29999])?;
    rows::values(out, Scale::Runway, &[399, 2001])?;
    rows::temperatures(out, &[25, -15, -4])?;
    rows::values(out, Scale::Direction, &[4, 5, 355])?;
    rows::values(out, Scale::Rain, &[9, 10, 9885])?;
    rows::signed(out, 1, 0)?;
    rows::figures(out, Scale::Land, &[55])
}

fn main(rt: HostRuntime) -> io::Result<()> {
    let out = &mut rt.stdout();
    land(out)?;
    sea(out)?;
    bases(out)?;
    clouds(out)?;
    visibilities(out)?;
    runways(out)?;
    depths(out)?;
    layers(out)?;
    temperatures(out)?;
    pressures(out)?;
    rains(out)?;
    directions(out)?;
    seen(out)?;
    marked(out)
}
