// One group of a part: where it goes in the row of places, which what was read before has no part in, and what it says there.
ghost use Rattle.std.specs.Prelude.{◌≡◌};
ghost use Rattle.shapes.specs.Pattern.{has_any};
ghost use Rattle.places.specs.Turn.{turn_at};
ghost use Rattle.elements.specs.Answers.{as_period};
ghost use Rattle.taf_row.specs.declared.kinds.Form.TheVariants as form;
ghost use Rattle.taf_row.specs.Row.{correction_of, hour_of, hour_alone, read_period, row, change_words};
ghost use Rattle.taf.specs.Said.{Says};

use aerodrome_groups::read::read_time;
use body::read::say;
use elements::kinds::Said;
use figures::field;
use figures::kinds::Field;
use places::kinds::Turn;
use places::turn_by;
use record::aerodrome::{Body, Correction, Edition, Instant, Period};
use shapes::has_pattern;
use taf_row::kinds::{Form, Part};
use taf_row::row::{change_form, find, is_change_word, is_end_hour, is_main, own_form};
use text::kinds::Refusal;

// ---- its place

// The group's turn, where `count` groups stand at `place`.
pub fn decide(edition: Edition, part: Part, place: usize, count: usize, g: &[u8]) -> Turn
    ensures { result ≡ turn_at (row edition part) (has_any (change_words edition)) place count g.now }
{
    if 12 <= place {
        return Turn::Refused(Refusal::Shape);
    }
    if is_change_word(edition, g) {
        return Turn::Halt;
    }
    turn_by(find(edition, part, place, count, g))
}

// ---- what it says

// AMD or COR
fn correction_of(g: &[u8]) -> Correction
    ensures { result ≡ correction_of g.now }
{
    if has_pattern(g, b"AMD") {
        Correction::Amended
    } else {
        Correction::Corrected
    }
}

fn hour_of(day: u32, hour: u32) -> Instant
    ensures { result ≡ hour_of day hour }
{
    Instant {
        day: Some(day),
        hour: Some(hour),
        minute: None,
    }
}

fn hour_alone(hour: u32) -> Instant
    ensures { result ≡ hour_alone hour }
{
    Instant {
        day: None,
        hour: Some(hour),
        minute: None,
    }
}

// GGGeGe
#[tactic(auto, unfolding(taf_row::specs::Row::read_period))]
fn read_hours(g: &[u8]) -> Said
    ensures { result ≡ as_period (read_period form.NoDay g.now) }
{
    let Field::Number(hour) = field(g, 0, 2) else {
        return Said::Refused(Refusal::Figure);
    };
    let Field::Number(end) = field(g, 2, 2) else {
        return Said::Refused(Refusal::Figure);
    };
    if (hour <= 23) & is_end_hour(Form::NoDay, end) {
        Said::Period(Period {
            from: hour_alone(hour),
            to: hour_alone(end),
        })
    } else {
        Said::Refused(Refusal::Figure)
    }
}

// Y1Y1G1G1G2G2
#[tactic(auto, unfolding(taf_row::specs::Row::read_period))]
fn read_first_day(g: &[u8]) -> Said
    ensures { result ≡ as_period (read_period form.FirstDay g.now) }
{
    let Field::Number(day) = field(g, 0, 2) else {
        return Said::Refused(Refusal::Figure);
    };
    let Field::Number(hour) = field(g, 2, 2) else {
        return Said::Refused(Refusal::Figure);
    };
    let Field::Number(end) = field(g, 4, 2) else {
        return Said::Refused(Refusal::Figure);
    };
    if ((1 <= day) & (day <= 31)) & (hour <= 23) & is_end_hour(Form::FirstDay, end) {
        Said::Period(Period {
            from: hour_of(day, hour),
            to: hour_alone(end),
        })
    } else {
        Said::Refused(Refusal::Figure)
    }
}

// YYGG/YYGG
#[tactic(auto, unfolding(taf_row::specs::Row::read_period))]
fn read_both_days(g: &[u8]) -> Said
    ensures { result ≡ as_period (read_period form.BothDays g.now) }
{
    let Field::Number(day) = field(g, 0, 2) else {
        return Said::Refused(Refusal::Figure);
    };
    let Field::Number(hour) = field(g, 2, 2) else {
        return Said::Refused(Refusal::Figure);
    };
    let Field::Number(last) = field(g, 5, 2) else {
        return Said::Refused(Refusal::Figure);
    };
    let Field::Number(end) = field(g, 7, 2) else {
        return Said::Refused(Refusal::Figure);
    };
    if (1 <= day) & (day <= 31) & (hour <= 23) & ((1 <= last) & (last <= 31)) & (end <= 24) {
        Said::Period(Period {
            from: hour_of(day, hour),
            to: hour_of(last, end),
        })
    } else {
        Said::Refused(Refusal::Figure)
    }
}

fn read_period(form: Form, g: &[u8]) -> Said
    ensures { result ≡ as_period (read_period form g.now) }
{
    match form {
        Form::BothDays => read_both_days(g),
        Form::FirstDay => read_first_day(g),
        Form::NoDay => read_hours(g),
    }
}

// What the group says at its place, where `count` groups stand; the body is that of the part so far.
pub fn say_at(edition: Edition, part: Part, place: usize, count: usize, g: &[u8], b: Body) -> Said
    ensures { Says edition part place count g.now b result }
{
    let change = !is_main(part);
    match place {
        0 => Said::Nothing,
        1 => Said::Correction(correction_of(g)),
        2 => Said::Station,
        3 => read_time(g),
        4 => Said::Nil,
        5 => read_period(own_form(edition), g),
        6 => read_period(change_form(edition), g),
        7 => Said::Cancelled,
        8 => say(0, true, change, false, count, g, b),
        9 => say(1, true, change, false, count, g, b),
        10 => say(2, true, change, false, count, g, b),
        11 => say(3, true, change, false, count, g, b),
        _ => Said::Refused(Refusal::Shape),
    }
}
