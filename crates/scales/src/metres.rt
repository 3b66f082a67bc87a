// The six scales in metres, 0 to 99,999, by arithmetic: table 4377 over land and at sea, 1600 h, VVVV, the runway visual range and table 1690.
ghost use Rattle.std.specs.Prelude.{◌≡◌, cond, ◌%◌, ◌<◌, eqb, None, Some};
ghost use Rattle.scales.specs.Metres.{land, sea, base, visibility, cloud, metres_figure, metres_reading, range_figure, range_reading};

use crate::kinds::Range;

// A figure that is its own reading, where such figures are `apart` apart.
fn multiple(figure: u32, apart: u32) -> Option<u32>
    requires { 0 < apart }
    ensures { result ≡ cond (eqb (figure % apart) 0) (Some figure) None }
{
    if figure % apart == 0 {
        Some(figure)
    } else {
        None
    }
}

// ---- 4377 over land

pub fn land_figure(metres: u32) -> Option<u32>
    ensures { result ≡ metres_figure land metres }
{
    if metres < 5000 {
        Some(metres / 100)
    } else if metres < 6000 {
        Some(50)
    } else if metres < 30000 {
        Some(50 + metres / 1000)
    } else if metres <= 70000 {
        Some(74 + metres / 5000)
    } else if metres <= 99999 {
        Some(89)
    } else {
        None
    }
}

pub fn land_reading(figure: u32) -> Option<u32>
    ensures { result ≡ metres_reading land figure }
{
    if figure <= 50 {
        Some(figure * 100)
    } else if figure < 56 {
        None
    } else if figure <= 80 {
        Some((figure - 50) * 1000)
    } else if figure <= 88 {
        Some((figure - 74) * 5000)
    } else if figure == 89 {
        Some(70001)
    } else {
        None
    }
}

// ---- 4377 at sea

pub fn sea_figure(metres: u32) -> Option<u32>
    ensures { result ≡ metres_figure sea metres }
{
    if metres < 50 {
        Some(90)
    } else if metres < 200 {
        Some(91)
    } else if metres < 500 {
        Some(92)
    } else if metres < 1000 {
        Some(93)
    } else if metres < 2000 {
        Some(94)
    } else if metres < 4000 {
        Some(95)
    } else if metres < 10000 {
        Some(96)
    } else if metres < 20000 {
        Some(97)
    } else if metres < 50000 {
        Some(98)
    } else if metres <= 99999 {
        Some(99)
    } else {
        None
    }
}

pub fn sea_reading(figure: u32) -> Option<u32>
    ensures { result ≡ metres_reading sea figure }
{
    match figure {
        90 => Some(0),
        91 => Some(50),
        92 => Some(200),
        93 => Some(500),
        94 => Some(1000),
        95 => Some(2000),
        96 => Some(4000),
        97 => Some(10000),
        98 => Some(20000),
        99 => Some(50000),
        _ => None,
    }
}

// ---- 1600 h

pub fn base_figure(metres: u32) -> Option<u32>
    ensures { result ≡ metres_figure base metres }
{
    if metres < 50 {
        Some(0)
    } else if metres < 100 {
        Some(1)
    } else if metres < 200 {
        Some(2)
    } else if metres < 300 {
        Some(3)
    } else if metres < 600 {
        Some(4)
    } else if metres < 1000 {
        Some(5)
    } else if metres < 1500 {
        Some(6)
    } else if metres < 2000 {
        Some(7)
    } else if metres < 2500 {
        Some(8)
    } else if metres <= 99999 {
        Some(9)
    } else {
        None
    }
}

pub fn base_reading(figure: u32) -> Option<u32>
    ensures { result ≡ metres_reading base figure }
{
    match figure {
        0 => Some(0),
        1 => Some(50),
        2 => Some(100),
        3 => Some(200),
        4 => Some(300),
        5 => Some(600),
        6 => Some(1000),
        7 => Some(1500),
        8 => Some(2000),
        9 => Some(2500),
        _ => None,
    }
}

// ---- VVVV

pub fn visibility_figure(metres: u32) -> Option<u32>
    ensures { result ≡ metres_figure visibility metres }
{
    if metres < 800 {
        Some(metres / 50 * 50)
    } else if metres < 5000 {
        Some(metres / 100 * 100)
    } else if metres < 10000 {
        Some(metres / 1000 * 1000)
    } else if metres <= 99999 {
        Some(9999)
    } else {
        None
    }
}

pub fn visibility_reading(figure: u32) -> Option<u32>
    ensures { result ≡ metres_reading visibility figure }
{
    if figure < 800 {
        multiple(figure, 50)
    } else if figure < 5000 {
        multiple(figure, 100)
    } else if figure <= 9000 {
        multiple(figure, 1000)
    } else if figure == 9999 {
        Some(10000)
    } else {
        None
    }
}

// ---- the runway visual range

pub fn runway_figure(metres: u32) -> Option<Range>
    ensures { result ≡ range_figure metres }
{
    if metres < 50 {
        Some(Range::Below(50))
    } else if metres < 400 {
        Some(Range::Exact(metres / 25 * 25))
    } else if metres < 800 {
        Some(Range::Exact(metres / 50 * 50))
    } else if metres <= 2000 {
        Some(Range::Exact(metres / 100 * 100))
    } else if metres <= 99999 {
        Some(Range::Above(2000))
    } else {
        None
    }
}

fn exact_reading(figure: u32) -> Option<u32>
    ensures { result ≡ range_reading (Range.Exact figure) }
{
    if figure < 50 {
        None
    } else if figure < 400 {
        multiple(figure, 25)
    } else if figure < 800 {
        multiple(figure, 50)
    } else if figure <= 2000 {
        multiple(figure, 100)
    } else {
        None
    }
}

pub fn runway_reading(range: Range) -> Option<u32>
    ensures { result ≡ range_reading range }
{
    match range {
        Range::Below(figure) => { if figure == 50 { Some(0) } else { None } }
        Range::Exact(figure) => exact_reading(figure),
        Range::Above(figure) => { if figure == 2000 { Some(2001) } else { None } }
    }
}

// ---- 1690

pub fn cloud_figure(metres: u32) -> Option<u32>
    ensures { result ≡ metres_figure cloud metres }
{
    if metres < 3000 {
        Some(metres / 30)
    } else if metres < 3300 {
        Some(100)
    } else if metres < 30000 {
        Some(metres / 300 * 10)
    } else if metres <= 99999 {
        Some(999)
    } else {
        None
    }
}

pub fn cloud_reading(figure: u32) -> Option<u32>
    ensures { result ≡ metres_reading cloud figure }
{
    if figure <= 100 {
        Some(figure * 30)
    } else if figure <= 990 {
        if figure % 10 == 0 {
            Some(figure / 10 * 300)
        } else {
            None
        }
    } else if figure == 999 {
        Some(30000)
    } else {
        None
    }
}
