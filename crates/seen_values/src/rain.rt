// Rain: a trace, exact tenths below 1.0 mm, from there on the values nearest to a whole millimetre.
ghost use Rattle.std.specs.Prelude.{◌≡◌};
ghost use Rattle.seen_values.specs.Rounded.{seen_tenths, seen_rain};

use crate::kinds::{RainSeen, Seen};
use scales::kinds::Rain;

fn tenths_seen(tenths: u32) -> Seen
    ensures { result ≡ seen_tenths tenths }
{
    if tenths == 0 {
        Seen::Nothing
    } else if tenths < 10 {
        Seen::Between {
            least: tenths,
            greatest: tenths,
        }
    } else if tenths == 10 {
        Seen::Between {
            least: 10,
            greatest: 14,
        }
    } else if tenths == 9890 {
        Seen::From { least: 9885 }
    } else if 9890 < tenths {
        Seen::Nothing
    } else if tenths % 10 == 0 {
        Seen::Between {
            least: tenths - 5,
            greatest: tenths + 4,
        }
    } else {
        Seen::Nothing
    }
}

pub fn rain_seen(rain: Rain) -> RainSeen
    ensures { result ≡ seen_rain rain }
{
    match rain {
        Rain::Trace => RainSeen::Trace,
        Rain::Tenths(tenths) => RainSeen::Tenths(tenths_seen(tenths)),
    }
}
