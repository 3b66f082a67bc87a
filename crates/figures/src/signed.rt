// Signed tenths taken apart into sign and magnitude, and put together: all that the library does with signed numbers.
ghost use Rattle.std.specs.Prelude.{◌≡◌, nat_abs};
ghost use Rattle.figures.specs.Signed.{negative, signed_of};

pub fn is_negative(t: i32) -> bool
    ensures { result ≡ negative t }
{
    t < 0
}

// The distance of t from zero.
pub fn magnitude(t: i32) -> u32
    ensures { result ≡ nat_abs t }
{
    if t < 0 {
        // one more first, so that the least number has a magnitude too
        (-(t + 1)) as u32 + 1
    } else {
        t as u32
    }
}

// Minus or plus m, where it fits.
pub fn signed_of(minus: bool, m: u32) -> Option<i32>
    ensures { result ≡ signed_of minus m }
{
    if m <= 2147483647 {
        let n = m as i32;
        if minus { Some(-n) } else { Some(n) }
    } else {
        None
    }
}
