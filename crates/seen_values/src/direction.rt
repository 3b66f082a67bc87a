// Directions: ten degrees round a multiple of ten, on the circle.
ghost use Rattle.std.specs.Prelude.{◌≡◌};
ghost use Rattle.seen_values.specs.Rounded.{seen_direction};

use crate::kinds::Arc;

pub fn direction_seen(degrees: u32) -> Option<Arc>
    ensures { result ≡ seen_direction degrees }
{
    if 359 < degrees {
        None
    } else if degrees % 10 == 0 {
        Some(Arc {
            first: (degrees + 355) % 360,
            last: degrees + 4,
        })
    } else {
        None
    }
}
