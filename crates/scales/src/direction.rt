// Directions in tens of degrees, to the nearest, halves up: 36 is north.
// The figure of a direction, and its two figures as a text, are worked out by comparison and subtraction alone: a station logger whose processor
// has no divide instruction calls them. `tests/no_divide` holds their machine code to it.
ghost use Rattle.std.specs.Prelude.{◌≡◌, ◌+◌, ◌*◌, ◌/◌, ◌%◌, ◌<◌};
ghost use Rattle.figures.specs.Figures.{field_text};
ghost use Rattle.scales.specs.Fields.{field_by, two_text};
ghost use Rattle.scales.specs.Rounded.{direction_figure, direction_reading};

use crate::kinds::TwoFigures;

// A number from which tens are taken: how many were taken, and what is left of it.
#[derive(Clone, Copy)]
struct Tens {
    taken: u32,
    left: u32,
}

// Takes `tens` tens, which are `amount`, where as much is left.
fn take_tens(from: Tens, amount: u32, tens: u32) -> Tens
    requires { (amount ≡ 10 * tens) × (from.taken + tens < 100) × (from.left < amount + amount) }
    ensures { (result.left + 10 * result.taken ≡ from.left + 10 * from.taken) × (result.left < amount) }
{
    if amount <= from.left {
        Tens {
            taken: from.taken + tens,
            left: from.left - amount,
        }
    } else {
        from
    }
}

// The tens of a number and what is left, below ten. Each step halves what may be left. A loop that subtracts ten at a time would be shorter, but
// the compiler makes a division of it: a multiplication and a shift.
fn tens_of(number: u32) -> Tens
    requires { number < 640 }
    ensures { (result.taken ≡ number / 10) × (result.left ≡ number % 10) }
{
    let below_640 = Tens {
        taken: 0,
        left: number,
    };
    let below_320 = take_tens(below_640, 320, 32);
    let below_160 = take_tens(below_320, 160, 16);
    let below_80 = take_tens(below_160, 80, 8);
    let below_40 = take_tens(below_80, 40, 4);
    let below_20 = take_tens(below_40, 20, 2);
    take_tens(below_20, 10, 1)
}

pub fn direction_figure(degrees: u32) -> Option<u32>
    ensures { result ≡ direction_figure degrees }
{
    if 359 < degrees {
        None
    } else if degrees < 5 {
        Some(36)
    } else {
        Some(tens_of(degrees + 5).taken)
    }
}

// The byte of a figure.
fn figure_byte(figure: u32) -> u8
    requires { figure < 10 }
    ensures { result ≡ 48 + figure }
{
    b'0' + figure as u8
}

// dd, the text of a direction: the two bytes that a SYNOP has for it. In a METAR a zero follows them.
pub fn direction_figures(degrees: u32) -> Option<TwoFigures>
    ensures { two_text result ≡ field_text 2 (field_by (direction_figure degrees)) }
{
    let figure = direction_figure(degrees)?;
    let tens = tens_of(figure);
    Some(TwoFigures {
        tens: figure_byte(tens.taken),
        units: figure_byte(tens.left),
    })
}

pub fn direction_reading(tens: u32) -> Option<u32>
    ensures { result ≡ direction_reading tens }
{
    if tens == 0 {
        None
    } else if tens <= 36 {
        Some(tens * 10 % 360)
    } else {
        None
    }
}
