// Q in whole hPa, from tenths, rounded down.
ghost use Rattle.std.specs.Prelude.{◌≡◌};
ghost use Rattle.scales.specs.Rounded.{pressure_figure, pressure_reading};

pub fn pressure_figure(tenths: u32) -> Option<u32>
    ensures { result ≡ pressure_figure tenths }
{
    if tenths <= 99999 {
        Some(tenths / 10)
    } else {
        None
    }
}

pub fn pressure_reading(figure: u32) -> Option<u32>
    ensures { result ≡ pressure_reading figure }
{
    if figure <= 9999 {
        Some(figure * 10)
    } else {
        None
    }
}
