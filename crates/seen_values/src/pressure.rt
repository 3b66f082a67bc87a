// Q in tenths of hPa: ten values from a whole hPa on.
ghost use Rattle.std.specs.Prelude.{◌≡◌};
ghost use Rattle.seen_values.specs.Rounded.{seen_pressure};

use crate::kinds::Seen;

pub fn pressure_seen(tenths: u32) -> Seen
    ensures { result ≡ seen_pressure tenths }
{
    if 99999 < tenths {
        Seen::Nothing
    } else if tenths % 10 == 0 {
        Seen::Between {
            least: tenths,
            greatest: tenths + 9,
        }
    } else {
        Seen::Nothing
    }
}
