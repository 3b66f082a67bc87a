// What a change word opens.
ghost use Rattle.std.specs.Prelude.{◌≡◌, Ok};
ghost use Rattle.taf.specs.Read.{from_group, probable_group, opened_by, part_of, after_probable, change_of};
ghost use Rattle.record.specs.declared.aerodrome.Edition.TheVariants as edition;
ghost use Rattle.record.specs.Taf.{blank_period};
ghost use Rattle.taf.specs.Step.{begun_by, from_time, BeginsIn, opened_with};

use crate::kinds::{Opened, Start};
use figures::field;
use figures::kinds::Field;
use record::aerodrome::{Change, Edition, Instant, Leg, Opening, Period};
use record::blank_aerodrome::blank_instant;
use shapes::has_pattern;
use taf_row::kinds::Part;
use taf_row::tests::does_join;
use text::kinds::{Cut, Refusal};

// A change whose period is still to come.
fn begin(opening: Opening) -> Result<Opened, Refusal>
    ensures { result ≡ Ok (opened_with opening blank_period) }
{
    let period = Period {
        from: blank_instant(),
        to: blank_instant(),
    };
    Ok(Opened { opening, period })
}

// The day, where there is one, the hour and the minute of FM as the beginning of a period.
fn begin_from(day: Option<u32>, hour: u32, minute: u32) -> Result<Opened, Refusal>
    ensures { result ≡ from_time day hour minute }
{
    let from = Instant {
        day,
        hour: Some(hour),
        minute: Some(minute),
    };
    let period = Period {
        from,
        to: blank_instant(),
    };
    Ok(Opened {
        opening: Opening::From,
        period,
    })
}

// FMYYGGgg
fn open_from_day(g: &[u8]) -> Result<Opened, Refusal>
    ensures { begun_by result ≡ from_group edition.Present g.now }
{
    let Field::Number(day) = field(g, 2, 2) else {
        return Err(Refusal::Figure);
    };
    let Field::Number(hour) = field(g, 4, 2) else {
        return Err(Refusal::Figure);
    };
    let Field::Number(minute) = field(g, 6, 2) else {
        return Err(Refusal::Figure);
    };
    if (1 <= day) & (day <= 31) & (hour <= 23) & (minute <= 59) {
        begin_from(Some(day), hour, minute)
    } else {
        Err(Refusal::Figure)
    }
}

// FMGGgg
fn open_from_hour(g: &[u8]) -> Result<Opened, Refusal>
    ensures { begun_by result ≡ from_group edition.Of2005 g.now }
{
    let Field::Number(hour) = field(g, 2, 2) else {
        return Err(Refusal::Figure);
    };
    let Field::Number(minute) = field(g, 4, 2) else {
        return Err(Refusal::Figure);
    };
    if (hour <= 23) & (minute <= 59) {
        begin_from(None, hour, minute)
    } else {
        Err(Refusal::Figure)
    }
}

fn open_from(edition: Edition, g: &[u8]) -> Result<Opened, Refusal>
    ensures { begun_by result ≡ from_group edition g.now }
{
    match edition {
        Edition::Present => open_from_day(g),
        Edition::Of2005 => open_from_hour(g),
    }
}

// PROB30, PROB40
fn open_probable(g: &[u8]) -> Result<Opened, Refusal>
    ensures { begun_by result ≡ probable_group g.now }
{
    let Field::Number(chance) = field(g, 4, 2) else {
        return Err(Refusal::Figure);
    };
    if (chance == 30) | (chance == 40) {
        begin(Opening::Probable(chance))
    } else {
        Err(Refusal::Figure)
    }
}

pub fn open_change(edition: Edition, g: &[u8]) -> Result<Opened, Refusal>
    ensures { begun_by result ≡ opened_by edition g.now }
{
    if has_pattern(g, b"BECMG") {
        return begin(Opening::Becoming);
    }
    if has_pattern(g, b"TEMPO") {
        return begin(Opening::Temporary);
    }
    if has_pattern(g, b"PROB##") {
        open_probable(g)
    } else {
        open_from(edition, g)
    }
}

// ---- TEMPO at once after PROB30 or PROB40

fn after_probable(opening: Opening) -> Opening
    ensures { result ≡ after_probable opening }
{
    match opening {
        Opening::None => Opening::None,
        Opening::Becoming => Opening::Becoming,
        Opening::Temporary => Opening::Temporary,
        Opening::Probable(n) => Opening::ProbablyTemporary(n),
        Opening::ProbablyTemporary(n) => Opening::ProbablyTemporary(n),
        Opening::From => Opening::From,
    }
}

// Behind the word that opens a change: TEMPO belongs to it, or its part begins there.
pub fn begin_part(text: &[u8], at: usize, opening: Opening) -> Start
    ensures { BeginsIn text.now opening at result }
{
    let Cut::Group { start, end } = text::next_group(text, at) else {
        return Start { opening, at };
    };
    if does_join(opening, text::part(text, start, end)) {
        Start {
            opening: after_probable(opening),
            at: end,
        }
    } else {
        Start { opening, at }
    }
}

// ---- the change that is read

// The row that a change is held to.
pub fn part_of(opening: Opening) -> Part
    ensures { result ≡ part_of opening }
{
    match opening {
        Opening::From => Part::From,
        Opening::None
        | Opening::Becoming
        | Opening::Temporary
        | Opening::Probable(_)
        | Opening::ProbablyTemporary(_) => Part::Changing,
    }
}

pub fn change_of(opening: Opening, r: Leg) -> Change
    ensures { result ≡ change_of opening r }
{
    Change {
        opening,
        period: r.period,
        body: r.body,
    }
}
