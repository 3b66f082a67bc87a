// Rain: a trace, tenths below a millimetre, whole millimetres from there on.
ghost use Rattle.std.specs.Prelude.{◌≡◌};
ghost use Rattle.scales.specs.Rounded.{rain_figure, rain_reading};

use crate::kinds::Rain;

pub fn rain_figure(rain: Rain) -> Option<u32>
    ensures { result ≡ rain_figure rain }
{
    match rain {
        Rain::Trace => Some(990),
        Rain::Tenths(tenths) => {
            if tenths == 0 {
                None
            } else if tenths < 10 {
                Some(990 + tenths)
            } else if tenths < 9885 {
                Some((tenths + 5) / 10)
            } else if tenths <= 99999 {
                Some(989)
            } else {
                None
            }
        }
    }
}

pub fn rain_reading(figure: u32) -> Option<Rain>
    ensures { result ≡ rain_reading figure }
{
    if figure == 0 {
        None
    } else if figure <= 989 {
        Some(Rain::Tenths(figure * 10))
    } else if figure == 990 {
        Some(Rain::Trace)
    } else if figure <= 999 {
        Some(Rain::Tenths(figure - 990))
    } else {
        None
    }
}
