// The times of a trend's change: FM, TL and AT, each with GGgg.
ghost use Rattle.std.specs.Prelude.{◌≡◌, ◌∷◌, [], ◌++◌};
ghost use Rattle.figures.specs.Put.{Put};
ghost use Rattle.text.specs.Groups.{written};
ghost use Rattle.elements.specs.Answers.{as_times};
ghost use Rattle.trend_row.specs.Times.{is_end, moment_fits, with_time, is_barred, read_time, read_from, read_until, read_at, show_moment, show_from, show_until, show_at, hours_fit};

use crate::kinds::Mark;
use elements::kinds::Said;
use figures::field;
use figures::kinds::Field;
use figures::put::{put_number, put_text};
use record::aerodrome::{Hours, Moment, Times};
use text::kinds::Refusal;
use text::write::open_group;

// ---- reading

// TL is where a change ends.
fn is_end(mark: Mark) -> bool
    ensures { result ≡ is_end mark }
{
    match mark {
        Mark::From => false,
        Mark::Until => true,
        Mark::At => false,
    }
}

// 0000 to 2359, or where a change ends 2400 too
fn is_right(end: bool, t: Moment) -> bool
    ensures { result ≡ moment_fits end t }
{
    let usual = (t.hour <= 23) & (t.minute <= 59);
    let last = (t.hour == 24) & (t.minute == 0);
    usual | (end & last)
}

// The times that stand, with one more: TL after FM, or alone.
fn with_time(mark: Mark, hours: Hours, t: Moment) -> Hours
    ensures { result ≡ with_time mark hours t }
{
    match mark {
        Mark::From => Hours::From(t),
        Mark::Until => match hours {
            Hours::None => Hours::Until(t),
            Hours::From(from) => Hours::Between { from, until: t },
            Hours::Until(_) => Hours::Until(t),
            Hours::Between { from, until: _ } => Hours::Between { from, until: t },
            Hours::At(_) => Hours::Until(t),
        },
        Mark::At => Hours::At(t),
    }
}

// AT stands alone.
fn is_barred(mark: Mark, hours: Hours) -> bool
    ensures { result ≡ is_barred mark hours }
{
    match mark {
        Mark::From => false,
        Mark::Until => false,
        Mark::At => !hours.is_none(),
    }
}

#[tactic(auto, unfolding(crate::specs::Times::read_moment))]
fn read_time(mark: Mark, g: &[u8], hours: Hours) -> Said
    ensures { result ≡ as_times (read_time mark g.now hours) }
{
    if is_barred(mark, hours) {
        return Said::Refused(Refusal::Order);
    }
    let Field::Number(hour) = field(g, 2, 2) else {
        return Said::Refused(Refusal::Figure);
    };
    let Field::Number(minute) = field(g, 4, 2) else {
        return Said::Refused(Refusal::Figure);
    };
    let moment = Moment { hour, minute };
    if is_right(is_end(mark), moment) {
        Said::Times(Times {
            is: with_time(mark, hours, moment),
        })
    } else {
        Said::Refused(Refusal::Figure)
    }
}

pub fn read_from(g: &[u8]) -> Said
    ensures { result ≡ as_times (read_from g.now) }
{
    read_time(Mark::From, g, Hours::None)
}

pub fn read_until(g: &[u8], times: Times) -> Said
    ensures { result ≡ as_times (read_until g.now times) }
{
    read_time(Mark::Until, g, times.is)
}

pub fn read_at(g: &[u8], times: Times) -> Said
    ensures { result ≡ as_times (read_at g.now times) }
{
    read_time(Mark::At, g, times.is)
}

// ---- judging

pub fn hours_fit(hours: Hours) -> bool
    ensures { result ≡ hours_fit hours }
{
    match hours {
        Hours::None => true,
        Hours::From(from) => is_right(false, from),
        Hours::Until(until) => is_right(true, until),
        Hours::Between { from, until } => is_right(false, from) & is_right(true, until),
        Hours::At(at) => is_right(false, at),
    }
}

// ---- writing

fn put_moment(out: &mut [u8], at: usize, word: &[u8], t: Moment) -> usize
    ensures { Put out.old at (written at ((word.now ++ show_moment t) ∷ [])) result out.new }
{
    let opened = open_group(out, at);
    let begun = put_text(out, opened, word);
    let timed = put_number(out, begun, 2, t.hour);
    put_number(out, timed, 2, t.minute)
}

// The times in their order.
pub fn put_times(out: &mut [u8], at: usize, times: Times) -> usize
    ensures { Put out.old at (written at (show_from times.is ++ (show_until times.is ++ show_at times.is))) result out.new }
{
    match times.is {
        Hours::None => at,
        Hours::From(from) => put_moment(out, at, b"FM", from),
        Hours::Until(until) => put_moment(out, at, b"TL", until),
        Hours::Between { from, until } => {
            let begun = put_moment(out, at, b"FM", from);
            put_moment(out, begun, b"TL", until)
        }
        Hours::At(time) => put_moment(out, at, b"AT", time),
    }
}
