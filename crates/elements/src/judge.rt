// What the writer judges of a number of metres.
ghost use Rattle.std.specs.Prelude.{◌≡◌};
ghost use Rattle.elements.specs.Judge.{metres_fit};

pub fn metres_fit(forecast: bool, n: Option<u32>) -> bool
    ensures { result ≡ metres_fit forecast n }
{
    match n {
        None => !forecast,
        Some(m) => m <= 99999,
    }
}
