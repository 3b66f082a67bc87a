// What a weather group says. A caller holds the group to its shape first, `has_weather` or `has_recent`; what has another shape is a wrong figure.
ghost use Rattle.std.specs.Prelude.{◌≡◌};
ghost use Rattle.elements.specs.Weather.{codes_of, some_codes, signed_codes, has_weather, has_recent, said_weather, is_unknown, has_unknown, unless_unknown, plain, is_plain, only_plain, read_weather, read_recent, with_weather};
ghost use Rattle.weather.specs.Split.{intensity_of, sign_length, told};

use crate::codes::{all_among, code_at, code_length, descriptor_of, intensity_fits};
use record::aerodrome::{Code, Intensity, Phenomena, Weather, Weathers};
use shapes::has_pattern;
use shapes::scan::rest_from;
use text::kinds::Refusal;

// One or more codes of the table, and nothing else.
#[tactic(auto, using(crate::proofs::Readings::codes_some))]
fn are_codes(g: &[u8]) -> bool
    ensures { result ≡ some_codes g.now }
{
    let n = g.len();
    if (0 < n) & (n % 2 == 0) {
        all_among(
            b"MIBCPRDRBLSHTSFZDZRASNSGICPLGRGSUPBRFGFUVADUSAHZPOSQFCSSDSVC",
            g,
        )
    } else {
        false
    }
}

// The same after a sign or none.
#[tactic(auto, unfolding(elements::specs::Weather::signed_codes))]
fn are_signed_codes(g: &[u8]) -> bool
    ensures { result ≡ signed_codes g.now }
{
    match g {
        [b'+' | b'-', codes @ ..] => are_codes(codes),
        _ => are_codes(g),
    }
}

#[tactic(auto, unfolding(elements::specs::Weather::has_weather))]
pub fn has_weather(g: &[u8]) -> bool
    ensures { result ≡ has_weather g.now }
{
    has_pattern(g, b"//") | are_signed_codes(g)
}

#[tactic(auto, unfolding(elements::specs::Weather::has_recent))]
pub fn has_recent(g: &[u8]) -> bool
    ensures { result ≡ has_recent g.now }
{
    match g {
        [b'R', b'E', codes @ ..] => are_signed_codes(codes),
        _ => false,
    }
}

#[tactic(auto, unfolding(crate::specs::Split::intensity_of))]
fn intensity_of(g: &[u8]) -> Intensity
    ensures { result ≡ intensity_of g.now }
{
    match g {
        [b'+', ..] => Intensity::Heavy,
        [b'-', ..] => Intensity::Light,
        [b'V', b'C', ..] => Intensity::Vicinity,
        _ => Intensity::None,
    }
}

fn sign_length(i: Intensity) -> usize
    ensures { result ≡ sign_length i }
{
    match i {
        Intensity::None => 0,
        Intensity::Light => 1,
        Intensity::Heavy => 1,
        Intensity::Vicinity => 2,
    }
}

// What codes say after their sign or VC.
#[tactic(auto, using(crate::proofs::Readings::told_good, crate::proofs::Readings::told_bad))]
fn tell(i: Intensity, s: &[u8]) -> Result<Weather, Refusal>
    ensures { result ≡ told i (codes_of s.now) }
{
    let d = descriptor_of(s);
    let rest = rest_from(s, code_length(d));
    if intensity_fits(i, d, rest) {
        let is = Phenomena {
            intensity: i,
            descriptor: d,
            first: code_at(rest, 0),
            second: code_at(rest, 1),
            third: code_at(rest, 2),
        };
        Ok(Weather { is: Some(is) })
    } else {
        Err(Refusal::Figure)
    }
}

#[tactic(auto, using(crate::proofs::Readings::said_is))]
fn say_weather(g: &[u8]) -> Result<Weather, Refusal>
    ensures { result ≡ said_weather g.now }
{
    let i = intensity_of(g);
    tell(i, rest_from(g, sign_length(i)))
}

pub fn is_unknown(c: Option<Code>) -> bool
    ensures { result ≡ is_unknown c }
{
    matches!(
        c,
        Some(Code {
            first: b'U',
            second: b'P'
        })
    )
}

pub fn has_unknown(p: Option<Phenomena>) -> bool
    ensures { result ≡ has_unknown p }
{
    match p {
        None => false,
        Some(p) => is_unknown(p.first) | is_unknown(p.second) | is_unknown(p.third),
    }
}

// UP stands only in an automatic report.
fn unless_unknown(automatic: bool, x: Result<Weather, Refusal>) -> Result<Weather, Refusal>
    ensures { result ≡ unless_unknown automatic x }
{
    let w = x?;
    if automatic | !has_unknown(w.is) {
        Ok(w)
    } else {
        Err(Refusal::Disagreement)
    }
}

pub fn is_plain(p: Option<Phenomena>) -> bool
    ensures { result ≡ is_plain p }
{
    p.is_some_and(|p| has_no_sign(p.intensity))
}

fn has_no_sign(i: Intensity) -> bool
    ensures { result ≡ plain i }
{
    matches!(i, Intensity::None)
}

// Recent weather has no sign and no VC.
fn only_plain(x: Result<Weather, Refusal>) -> Result<Weather, Refusal>
    ensures { result ≡ only_plain x }
{
    let w = x?;
    if is_plain(w.is) {
        Ok(w)
    } else {
        Err(Refusal::Figure)
    }
}

// Present or forecast weather: // is missing, which a forecast has none of.
#[tactic(auto, unfolding(elements::specs::Weather::read_weather))]
pub fn read_weather(forecast: bool, automatic: bool, g: &[u8]) -> Result<Weather, Refusal>
    ensures { result ≡ read_weather forecast automatic g.now }
{
    if has_pattern(g, b"//") {
        if forecast {
            Err(Refusal::Figure)
        } else {
            Ok(Weather { is: None })
        }
    } else {
        unless_unknown(automatic, say_weather(g))
    }
}

#[tactic(auto, using(crate::proofs::Readings::recent_is))]
pub fn read_recent(automatic: bool, g: &[u8]) -> Result<Weather, Refusal>
    ensures { result ≡ read_recent automatic g.now }
{
    unless_unknown(automatic, only_plain(say_weather(rest_from(g, 2))))
}

// One more where k stand; past the third there is no room.
pub fn add_weather(k: usize, ws: Weathers, w: Weather) -> Weathers
    ensures { result ≡ with_weather k ws w }
{
    if k < 3 {
        let mut items = ws.items;
        items[k] = w;
        Weathers {
            items,
            count: k + 1,
        }
    } else {
        ws
    }
}
