// Where a part of a TAF stands: the main part, under a change word with a period, or under FM.
#[derive(Clone, Copy)]
pub enum Part {
    Main,
    Changing,
    From,
}

// How a period is written: with the days of its beginning and its end, with the day of its beginning alone, or with hours alone.
#[derive(Clone, Copy)]
pub enum Form {
    BothDays,
    FirstDay,
    NoDay,
}
