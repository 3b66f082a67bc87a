// Table 1677: how high a layer's base is in section 3, in metres, 0 to 99,999: by steps, 00 to 89, or by bands, 90 to 99, whose feet are those of 1600 h.
ghost use Rattle.std.specs.Prelude.{◌≡◌};
ghost use Rattle.scales.specs.Metres.{metres_figure, metres_reading};
ghost use Rattle.scales.specs.Layers.{layer_steps, layer_bands};

use crate::metres::{base_figure, base_reading};

pub fn steps_figure(metres: u32) -> Option<u32>
    ensures { result ≡ metres_figure layer_steps metres }
{
    if metres < 1500 {
        Some(metres / 30)
    } else if metres < 1800 {
        Some(50)
    } else if metres < 9000 {
        Some(50 + metres / 300)
    } else if metres <= 21000 {
        Some(74 + metres / 1500)
    } else if metres <= 99999 {
        Some(89)
    } else {
        None
    }
}

pub fn steps_reading(figure: u32) -> Option<u32>
    ensures { result ≡ metres_reading layer_steps figure }
{
    if figure <= 50 {
        Some(figure * 30)
    } else if figure < 56 {
        None
    } else if figure <= 80 {
        Some((figure - 50) * 300)
    } else if figure <= 88 {
        Some((figure - 74) * 1500)
    } else if figure == 89 {
        Some(21001)
    } else {
        None
    }
}

pub fn bands_figure(metres: u32) -> Option<u32>
    ensures { result ≡ metres_figure layer_bands metres }
{
    Some(90 + base_figure(metres)?)
}

pub fn bands_reading(figure: u32) -> Option<u32>
    ensures { result ≡ metres_reading layer_bands figure }
{
    if figure < 90 {
        None
    } else {
        base_reading(figure - 90)
    }
}
