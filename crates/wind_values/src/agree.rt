// What ties the parts of a wind to each other, in a text and in a record: calm and a zero speed go together, and a gust is above the mean.
ghost use Rattle.std.specs.Prelude.{◌≡◌};
ghost use Rattle.elements.specs.Wind.{is_calm, is_below, gust_agrees, wind_agrees};

use record::values::{Direction, Speed};

fn is_calm(d: Direction) -> bool
    ensures { result ≡ is_calm d }
{
    match d {
        Direction::Calm => true,
        _ => false,
    }
}

// No gust that is a number is known to be over a mean that is "above" a number.
fn is_below(mean: Speed, gust: u32) -> bool
    ensures { result ≡ is_below mean gust }
{
    match mean {
        Speed::Missing => false,
        Speed::Is(n) => n < gust,
        Speed::Above(_) => false, // beside P
    }
}

fn gust_agrees(d: Direction, mean: Speed, gust: Speed) -> bool
    ensures { result ≡ gust_agrees d mean gust }
{
    match gust {
        Speed::Missing => true,
        Speed::Is(g) => !is_calm(d) & is_below(mean, g),
        Speed::Above(_) => !is_calm(d),
    }
}

pub fn wind_agrees(d: Direction, mean: Speed, gust: Speed) -> bool
    ensures { result ≡ wind_agrees d mean gust }
{
    let still = mean.is_still();
    if is_calm(d) {
        still & gust_agrees(d, mean, gust)
    } else {
        !still & gust_agrees(d, mean, gust)
    }
}
