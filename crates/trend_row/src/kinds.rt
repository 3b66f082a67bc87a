// What opens a part of a trend, and what a time of a change stands behind.
#[derive(Clone, Copy)]
pub enum Word {
    Nosig,
    Becoming,
    Temporary,
}

// FM, TL, AT.
#[derive(Clone, Copy)]
pub enum Mark {
    From,
    Until,
    At,
}
