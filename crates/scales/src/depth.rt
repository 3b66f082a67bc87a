// Table 1079: how deep a deposit is on a runway, in millimetres, 0 to 99,999. Its figure 99, a runway that is closed, is no depth.
ghost use Rattle.std.specs.Prelude.{◌≡◌};
ghost use Rattle.scales.specs.Metres.{metres_figure, metres_reading};
ghost use Rattle.scales.specs.Depth.{depth};

pub fn depth_figure(millimetres: u32) -> Option<u32>
    ensures { result ≡ metres_figure depth millimetres }
{
    if millimetres < 90 {
        Some(millimetres)
    } else if millimetres < 100 {
        Some(90)
    } else if millimetres < 400 {
        Some(90 + millimetres / 50)
    } else if millimetres <= 99999 {
        Some(98)
    } else {
        None
    }
}

pub fn depth_reading(figure: u32) -> Option<u32>
    ensures { result ≡ metres_reading depth figure }
{
    if figure <= 90 {
        Some(figure)
    } else if figure < 92 {
        None
    } else if figure <= 98 {
        Some((figure - 90) * 50)
    } else {
        None
    }
}
