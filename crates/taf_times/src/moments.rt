// Moments in minutes, and the days of the month.
ghost use Rattle.std.specs.Prelude.{◌≡◌, ◌≤◌, ◌+◌};
ghost use Rattle.taf_times.specs.Moments.{moment, day_from, day_in, day_before, first_from, first_after, period_end, is_midnight, end_hour, end_day, lengthened};

// Minutes from the beginning of the day before the first.
pub fn moment(day: u32, hour: u32, minute: u32) -> u32
    requires { (day ≤ 1000) × (hour ≤ 99) × (minute ≤ 99) }
    ensures { result ≡ moment day hour minute }
{
    (day * 24 + hour) * 60 + minute
}

// A day before the start day lies in the next month.
#[tactic(auto, unfolding(crate::specs::Moments::day_from))]
pub fn day_from(days: u32, start: u32, day: u32) -> u32
    requires { (days ≤ 31) × (day ≤ 99) }
    ensures { (result ≡ day_from days start day) × (result ≤ 130) }
{
    if day < start { day + days } else { day }
}

// The day of its month.
#[tactic(auto, unfolding(crate::specs::Moments::day_in))]
pub fn day_in(days: u32, day: u32) -> u32
    ensures { result ≡ day_in days day }
{
    if day <= days { day } else { day - days }
}

#[tactic(auto, unfolding(crate::specs::Moments::day_before))]
fn day_before(days: u32, day: u32) -> u32
    ensures { result ≡ day_before days day }
{
    if day <= 1 { days } else { day - 1 }
}

// The first moment of this time at or after the start.
#[tactic(auto, unfolding(crate::specs::Moments::first_from))]
pub fn first_from(start: u32, hour: u32, minute: u32) -> u32
    requires { (start ≤ 500000) × (hour ≤ 99) × (minute ≤ 99) }
    ensures { (result ≡ first_from start hour minute) × (result ≤ start + 10000) }
{
    let t = moment(start / 60 / 24, hour, minute);
    if start <= t { t } else { t + 1440 }
}

// The first moment of this hour after the beginning; 24 is 00 of the next day.
#[tactic(auto, unfolding(crate::specs::Moments::first_after))]
pub fn first_after(start: u32, hour: u32) -> u32
    requires { (start ≤ 520000) × (hour ≤ 99) }
    ensures { (result ≡ first_after start hour) × (result ≤ start + 10000) }
{
    let t = moment(start / 60 / 24, hour, 0);
    if start < t { t } else { t + 1440 }
}

// The end of a period by G2 as written, with 50 where it lies in the second 24 hours.
#[tactic(auto, unfolding(crate::specs::Moments::period_end))]
pub fn period_end(start: u32, hour: u32) -> u32
    requires { (start ≤ 500000) × (hour ≤ 99) }
    ensures { (result ≡ period_end start hour) × (result ≤ start + 20000) }
{
    if hour <= 50 {
        first_after(start, hour)
    } else {
        first_after(start + 1440, hour - 50)
    }
}

#[tactic(auto, unfolding(crate::specs::Moments::is_midnight))]
fn is_midnight(t: u32) -> bool
    ensures { result ≡ is_midnight t }
{
    t / 60 % 24 == 0
}

// An end at hour 00 is written as 24 of the day before.
#[tactic(auto, unfolding(crate::specs::Moments::end_hour))]
pub fn end_hour(t: u32) -> u32
    ensures { (result ≡ end_hour t) × (result ≤ 24) }
{
    if is_midnight(t) { 24 } else { t / 60 % 24 }
}

#[tactic(auto, unfolding(crate::specs::Moments::end_day))]
pub fn end_day(days: u32, t: u32) -> u32
    ensures { result ≡ end_day days t }
{
    let day = day_in(days, t / 60 / 24);
    if is_midnight(t) {
        day_before(days, day)
    } else {
        day
    }
}

// G2: 50 more where the period lasts over 24 hours.
#[tactic(auto, unfolding(crate::specs::Moments::lengthened))]
pub fn lengthened(start: u32, end: u32, hour: u32) -> u32
    requires { (start ≤ 500000) × (hour ≤ 99) }
    ensures { result ≡ lengthened start end hour }
{
    if end <= start + 1440 { hour } else { hour + 50 }
}
