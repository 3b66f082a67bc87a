// What a part's row has, in the code's words: which places have a group's shape, how many may and must stand, and which place a group goes to.
ghost use Rattle.std.specs.Prelude.{◌≡◌, cond};
ghost use Rattle.shapes.specs.Pattern.{has_pattern, has_any};
ghost use Rattle.places.specs.Seek.{find_of};
ghost use Rattle.places.specs.Engine.{stands_of};
ghost use Rattle.taf_row.specs.Row.{is_main, is_whole, is_changing, is_correction, own_form, change_form, period_shape, is_end_hour, from_shape, row, change_words};
ghost use Rattle.taf_row.specs.Tests.{Musts, Onward};
ghost use Rattle.std.proofs.Common.{refl};
ghost use Rattle.rows.proofs.First.{few_of};

use crate::kinds::{Form, Part};
use body::read::has_weather_or_nsw;
use places::kinds::Found;
use record::aerodrome::{Edition, Leg};
use rows::Row;
use shapes::has_pattern;
use sky::read::has_sky;
use wind::read::{has_visibility, has_wind};

pub fn is_main(part: Part) -> bool
    ensures { result ≡ is_main part }
{
    match part {
        Part::Main => true,
        Part::Changing | Part::From => false,
    }
}

// Must wind and visibility stand there?
pub fn is_whole(part: Part) -> bool
    ensures { result ≡ is_whole part }
{
    match part {
        Part::Main | Part::From => true,
        Part::Changing => false,
    }
}

fn is_changing(part: Part) -> bool
    ensures { result ≡ is_changing part }
{
    match part {
        Part::Changing => true,
        Part::Main | Part::From => false,
    }
}

// ---- what the edition decides: how periods are written, and FM

// The report's own period.
pub fn own_form(edition: Edition) -> Form
    ensures { result ≡ own_form edition }
{
    match edition {
        Edition::Present => Form::BothDays,
        Edition::Of2005 => Form::FirstDay,
    }
}

// A change's period.
pub fn change_form(edition: Edition) -> Form
    ensures { result ≡ change_form edition }
{
    match edition {
        Edition::Present => Form::BothDays,
        Edition::Of2005 => Form::NoDay,
    }
}

fn is_period(form: Form, g: &[u8]) -> bool
    ensures { result ≡ has_pattern g.now (period_shape form) }
{
    match form {
        Form::BothDays => has_pattern(g, b"####/####"),
        Form::FirstDay => has_pattern(g, b"######"),
        Form::NoDay => has_pattern(g, b"####"),
    }
}

// May a period of this form end at the hour? In the 2005 edition 50 is added where it lasts 25 to 48 hours.
pub fn is_end_hour(form: Form, hour: u32) -> bool
    ensures { result ≡ is_end_hour form hour }
{
    match form {
        Form::BothDays => hour <= 24,
        Form::FirstDay => ((1 <= hour) & (hour <= 24)) | ((51 <= hour) & (hour <= 74)),
        Form::NoDay => (1 <= hour) & (hour <= 24),
    }
}

// FMYYGGgg or FMGGgg
fn is_from(edition: Edition, g: &[u8]) -> bool
    ensures { result ≡ has_pattern g.now (from_shape edition) }
{
    match edition {
        Edition::Present => has_pattern(g, b"FM######"),
        Edition::Of2005 => has_pattern(g, b"FM####"),
    }
}

// ---- the row

fn is_correction(g: &[u8]) -> bool
    ensures { result ≡ is_correction g.now }
{
    has_pattern(g, b"AMD") | has_pattern(g, b"COR")
}

pub fn is_change_word(edition: Edition, g: &[u8]) -> bool
    ensures { result ≡ has_any (change_words edition) g.now }
{
    let becoming = has_pattern(g, b"BECMG");
    let temporary = has_pattern(g, b"TEMPO");
    let probable = has_pattern(g, b"PROB##");
    let from = is_from(edition, g);
    becoming | temporary | probable | from
}

// One group may stand where the place is open.
fn one_if(free: bool) -> u8
    ensures { result ≡ cond free 1 0 }
{
    if free { 1 } else { 0 }
}

// Which places must have a group? In every edition the same.
pub fn musts(part: Part) -> [bool; 12]
    ensures { Musts part result }
{
    let main = is_main(part);
    let changing = is_changing(part);
    let whole = is_whole(part);
    [
        main, false, main, main, false, main, changing, false, whole, whole, false, false,
    ]
}

// The row of a part, in an edition.
#[derive(Clone, Copy)]
struct PartRow {
    edition: Edition,
    part: Part,
}

impl Row<12> for PartRow {
    type Record = Leg;

    ghost places = { λ r. row r.edition r.part };

    // In every part the same.
    #[tactic(auto, unfolding(crate::specs::Row::row))]
    fn has_at(self, place: usize, g: &[u8]) -> bool {
        match place {
            0 => has_pattern(g, b"TAF"),
            1 => is_correction(g),
            2 => has_pattern(g, b"@@@@"),
            3 => has_pattern(g, b"######Z"),
            4 => has_pattern(g, b"NIL"),
            5 => is_period(own_form(self.edition), g),
            6 => is_period(change_form(self.edition), g),
            7 => has_pattern(g, b"CNL"),
            8 => has_wind(g),
            9 => has_visibility(g),
            10 => has_weather_or_nsw(g),
            11 => has_sky(g),
            _ => false,
        }
    }

    // In every edition the same.
    fn mosts(self) -> [u8; 12] {
        let head = one_if(is_main(self.part));
        let change = one_if(is_changing(self.part));
        [head, head, head, head, head, head, change, head, 1, 1, 3, 4]
    }

    fn musts(self) -> [bool; 12] {
        musts(self.part)
    }

    ghost few = { few_of 12 refl };
}

// The place that the group goes to.
pub fn find(edition: Edition, part: Part, place: usize, count: usize, g: &[u8]) -> Found
    ensures { result ≡ find_of (stands_of (row edition part) g.now) place count }
{
    rows::find(PartRow { edition, part }, place, count, g)
}

// Past NIL and past CNL reading is past the row.
pub fn go_past(place: usize) -> usize
    ensures { Onward place result }
{
    if (place == 4) | (place == 7) {
        12
    } else {
        place
    }
}
