// The tests of the row: which groups are required, which groups stop the reading, which places have a group's shape, and where the group goes.
ghost use Rattle.std.specs.Prelude.{◌≡◌};
ghost use Rattle.shapes.specs.Pattern.{has_pattern, has_any};
ghost use Rattle.places.specs.Seek.{find_of};
ghost use Rattle.places.specs.Engine.{stands_of, musts_of};
ghost use Rattle.synop_groups.specs.Shows.{is_in_three};
ghost use Rattle.synop_row.specs.Row.{rain_due, weather_due, figure_is, needs_of, row, stop_words, section3_word};
ghost use Rattle.std.proofs.Common.{refl};
ghost use Rattle.rows.proofs.First.{few_of};

use crate::kinds::Needs;
use places::kinds::Found;
use record::surface::Surface;
use record::values::Speed;
use rows::Row;
use shapes::has_pattern;

// iR 0 or 1 requires the 6 group.
fn is_rain_due(rain: Option<u32>) -> bool
    ensures { result ≡ figure_is rain_due rain }
{
    match rain {
        None => false,
        Some(n) => (n == 0) | (n == 1),
    }
}

// ix 1, 4 or 7 requires the 7 group.
fn is_weather_due(weather: Option<u32>) -> bool
    ensures { result ≡ figure_is weather_due weather }
{
    match weather {
        None => false,
        Some(n) => (n == 1) | (n == 4) | (n == 7),
    }
}

// ff 99 requires 00fff.
fn is_in_three(speed: Speed) -> bool
    ensures { result ≡ is_in_three speed }
{
    match speed {
        Speed::Missing => false,
        Speed::Is(n) => 99 <= n,
        Speed::Above(_) => false,
    }
}

#[tactic(auto, unfolding(crate::specs::Row::needs_of))]
pub fn needs_of(s: Surface) -> Needs
    ensures { result ≡ needs_of s }
{
    let indicators = s.indicators;
    let rain = indicators.rain;
    let weather = indicators.weather;
    let wind = s.wind;
    let speed = wind.speed;
    Needs {
        rain: is_rain_due(rain),
        weather: is_weather_due(weather),
        speed: is_in_three(speed),
    }
}

// Of three bytes it can only be 333, 444 or 555, of any other length only 222 with two more: few patterns are tried on a group.
pub fn is_stop_word(g: &[u8]) -> bool
    ensures { result ≡ has_any stop_words g.now }
{
    if g.len() == 3 {
        return has_pattern(g, b"333") | has_pattern(g, b"444") | has_pattern(g, b"555");
    }
    has_pattern(g, b"222??")
}

// Does section 3 follow, once section 1 has nothing left to come?
pub fn is_section3(g: &[u8]) -> bool
    ensures { result ≡ has_pattern g.now section3_word }
{
    has_pattern(g, b"333")
}

// Which places must have a group?
#[tactic(auto, unfolding(crate::specs::Row::row))]
pub fn musts_of(n: Needs) -> [bool; 10]
    ensures { result ≡ musts_of (row n) }
{
    [
        n.speed, false, false, false, false, false, n.rain, n.weather, false, false,
    ]
}

impl Row<10> for Needs {
    type Record = Surface;

    ghost places = { row };

    #[tactic(auto, unfolding(crate::specs::Row::row))]
    fn has_at(self, place: usize, g: &[u8]) -> bool {
        match place {
            0 => has_pattern(g, b"00###"),
            1 => has_pattern(g, b"1####"),
            2 => has_pattern(g, b"2####"),
            3 => has_pattern(g, b"3####"),
            4 => has_pattern(g, b"4####"),
            5 => has_pattern(g, b"5####"),
            6 => has_pattern(g, b"6####"),
            7 => has_pattern(g, b"7####"),
            8 => has_pattern(g, b"8####"),
            9 => has_pattern(g, b"9####"),
            _ => false,
        }
    }

    #[tactic(auto, unfolding(crate::specs::Row::row))]
    fn mosts(self) -> [u8; 10] {
        [1; 10]
    }

    fn musts(self) -> [bool; 10] {
        musts_of(self)
    }

    ghost few = { few_of 10 refl };
}

// The place that the group goes to.
pub fn find(needs: Needs, place: usize, count: usize, g: &[u8]) -> Found
    ensures { result ≡ find_of (stands_of (row needs) g.now) place count }
{
    rows::find(needs, place, count, g)
}
