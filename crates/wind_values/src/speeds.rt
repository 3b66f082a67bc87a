// What the figures of a speed say; and the speeds over the last one that a unit writes as a number: an open class, which is written with P.
ghost use Rattle.std.specs.Prelude.{◌≡◌};
ghost use Rattle.elements.specs.Wind.{in_width, speed_by, last_exact, is_over, class_speed};

use record::aerodrome::Unit;
use record::values::Speed;
use text::kinds::Refusal;

// The figure after P: P99KT, P49MPS, P199KMH.
pub fn last_exact(unit: Unit) -> u32
    ensures { result ≡ last_exact unit }
{
    match unit {
        Unit::Missing => 0,
        Unit::Knots => 99,
        Unit::MetresPerSecond => 49,
        Unit::KilometresPerHour => 199,
    }
}

// Two figures below 100, three for 100 to 199: the alternatives of three figures are number 0 and, after P, number 2.
pub fn in_width(which: usize, n: u32) -> bool
    ensures { result ≡ in_width which n }
{
    if (which == 0) | (which == 2) {
        (100 <= n) & (n <= 199)
    } else {
        true
    }
}

// After P stands the greatest speed that is written as a number in this unit, and no other.
pub fn speed_by(unit: Unit, which: usize, n: u32) -> Result<Speed, Refusal>
    ensures { result ≡ speed_by unit which n }
{
    if which <= 1 {
        Ok(Speed::Is(n))
    } else if n == last_exact(unit) {
        Ok(Speed::Above(n))
    } else {
        Err(Refusal::Figure)
    }
}

fn is_over(unit: Unit, s: Speed) -> bool
    ensures { result ≡ is_over unit s }
{
    let last = last_exact(unit);
    match s {
        Speed::Missing => false,
        Speed::Is(n) => last < n,
        Speed::Above(n) => last <= n,
    }
}

// What a speed is written as, and so read back as.
pub fn class_speed(unit: Unit, s: Speed) -> Speed
    ensures { result ≡ class_speed unit s }
{
    if is_over(unit, s) {
        Speed::Above(last_exact(unit))
    } else {
        s
    }
}
