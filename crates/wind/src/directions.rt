// Directions as a wind and its variation write them: "010-360 by tens".
ghost use Rattle.std.specs.Prelude.{◌≡◌};
ghost use Rattle.scales.specs.Rounded.{ddd_figure, ddd_reading};
ghost use Rattle.wind.specs.Parts.{is_used};

use scales::direction::direction_figure;

pub fn is_tens(d: u32) -> bool
    ensures { result ≡ is_used (ddd_reading d) }
{
    (d % 10 == 0) & (10 <= d) & (d <= 360)
}

// The figures of a direction, a zero after its tens; 0 where it is out of range.
pub fn degrees_text(d: u32) -> u32
    ensures { result ≡ ddd_figure d }
{
    match direction_figure(d) {
        Some(tens) => tens * 10,
        None => 0,
    }
}
