// Runs the public calls on texts with known answers: the unread rest, which of two texts stands, a group by the walker, and the text of a figure.
#![tactic(auto)]

use metar_sources::kinds::{ChangeElement, Element};
use record::aerodrome::Edition;
use std::io;
use std::io::Write;
use text::kinds::Cut;

fn say_line(out: &mut impl Write, part: &[u8]) -> io::Result<()> {
    out.write_all(part)?;
    out.write_all(b"\n")
}

// The unread rest of a METAR behind its trend, and of one that is refused.
fn say_rests(out: &mut impl Write) -> io::Result<()> {
    say_line(
        out,
        report::rest(b"METAR LEMD 011200Z 27010KT CAVOK 15/10 Q1013 NOSIG RMK A=\r\n"),
    )?;
    say_line(
        out,
        report::rest(b"METAR LEMD 011200Z 27010KT CAVOK 15/10 NOSIG="),
    )
}

// A correction stands for the text that it corrects; one of another minute does not; a SYNOP never stands.
fn say_standing(out: &mut impl Write) -> io::Result<()> {
    let first = b" METAR LEMD 011200Z NIL=  ";
    say_line(
        out,
        report::standing(
            first,
            b"METAR COR LEMD 011200Z 27010KT CAVOK 15/10 Q1013=\n",
        ),
    )?;
    say_line(out, report::standing(first, b"METAR COR LEMD 011230Z NIL="))?;
    say_line(
        out,
        report::standing(b"AAXX 24124 99901 NIL=", b"METAR COR LEMD 011230Z NIL="),
    )
}

// The group at or after a position.
fn say_group(out: &mut impl Write, report: &[u8], at: usize) -> io::Result<()> {
    match walker::group_from(report, at) {
        Cut::Group { start, end } => say_line(out, text::part(report, start, end)),
        Cut::End { at: _ } => say_line(out, b"no more"),
    }
}

// The text of some figures: of an observation, of its trend, and of items that have none. The last text is refused.
fn say_sources(out: &mut impl Write) -> io::Result<()> {
    let told =
        b" SPECI  LEMD 011200Z AUTO 27010G25KT 4000 -RA BR SCT010 BKN020 15/14 Q1013 BECMG TL1330 9999 TEMPO SHRA RMK A=";
    say_line(out, report_sources::observed(told, Element::Station, 0))?;
    say_line(out, report_sources::observed(told, Element::Wind, 0))?;
    say_line(out, report_sources::observed(told, Element::Weather, 1))?;
    say_line(out, report_sources::observed(told, Element::Clouds, 1))?;
    say_line(out, report_sources::observed(told, Element::Runway, 0))?;
    say_line(out, report_sources::opened(told, 2))?;
    say_line(
        out,
        report_sources::changed(told, 1, ChangeElement::Until, 0),
    )?;
    say_line(
        out,
        report_sources::changed(told, 2, ChangeElement::Weather, 0),
    )?;
    say_line(
        out,
        report_sources::changed(told, 2, ChangeElement::Wind, 0),
    )?;
    say_line(
        out,
        report_sources::observed(b"METAR LEMD 011200Z 27010KT=", Element::Wind, 0),
    )
}

// The same of a TAF in each edition: of its main part, of a change under FM, which has no period's group, and of one under PROB30 TEMPO.
fn say_forecast_sources(out: &mut impl Write) -> io::Result<()> {
    let told =
        b"TAF AMD LEMD 011100Z 0112/0212 27010KT CAVOK FM011330 18005KT 9999 SCT020 PROB30 TEMPO 0114/0116 4000 RA=";
    say_line(
        out,
        report_sources::forecast::item(
            Edition::Present,
            told,
            taf_sources::kinds::Element::Correction,
            0,
        ),
    )?;
    say_forecast_change(out, told, 1)?;
    say_forecast_change(out, told, 2)?;
    say_line(
        out,
        report_sources::forecast::item(
            Edition::Of2005,
            b"TAF LEMD 011100Z 011212 27010KT CAVOK=",
            taf_sources::kinds::Element::Period,
            0,
        ),
    )
}

fn say_forecast_change(out: &mut impl Write, told: &[u8], part: usize) -> io::Result<()> {
    say_line(
        out,
        report_sources::forecast::opened(Edition::Present, told, part),
    )?;
    say_line(
        out,
        report_sources::forecast::joined(Edition::Present, told, part),
    )?;
    say_line(
        out,
        report_sources::forecast::changed(
            Edition::Present,
            told,
            part,
            taf_sources::kinds::ChangeElement::Period,
            0,
        ),
    )
}

// The same of a SYNOP: its station, its air temperature, a dew point that it has not, and of section 3 a maximum and the second layer, 8//// being none.
fn say_surface_sources(out: &mut impl Write) -> io::Result<()> {
    let told = b"AAXX 24124 99901 11466 80412 10053 60021 76166 333 10123 81510 8//// 82530 555 X=";
    say_line(
        out,
        report_sources::surface::item(told, synop_sources::kinds::Element::Station),
    )?;
    say_line(
        out,
        report_sources::surface::item(told, synop_sources::kinds::Element::Air),
    )?;
    say_line(
        out,
        report_sources::surface::item(told, synop_sources::kinds::Element::Moisture),
    )?;
    say_line(
        out,
        report_sources::surface::item(told, synop_sources::kinds::Element::Maximum),
    )?;
    say_line(out, report_sources::surface::layer(told, 1))?;
    say_line(out, report_sources::surface::opened(told))
}

fn main(rt: HostRuntime) -> io::Result<()> {
    let out = &mut rt.stdout();
    say_rests(out)?;
    say_standing(out)?;
    say_group(out, b" TAF LEMD=", 0)?;
    say_group(out, b" TAF LEMD=", 4)?;
    say_group(out, b" TAF LEMD=", 9)?;
    say_sources(out)?;
    say_forecast_sources(out)?;
    say_surface_sources(out)
}
