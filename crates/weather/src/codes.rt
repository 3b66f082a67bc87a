// The codes of table 4678, two letters each, and how they are joined. A text of codes is the codes one after the other; a letter that is left over at
// its end says nothing.
ghost use Rattle.std.specs.Prelude.{◌≡◌, ◌&&◌, ◌∷◌, []};
ghost use Rattle.elements.specs.Weather.{codes_of, among, is_descriptor, all_among, differ, precipitations, single, suits, under, right, in_vicinity, signed, intensity_fits, code_at};
ghost use Rattle.weather.specs.Split.{descriptor_of, code_length};

use figures::byte_at;
use record::aerodrome::{Code, Intensity};

// The code of these two letters is one of the codes.
pub fn is_one(codes: &[u8], a: u8, b: u8) -> bool
    ensures { result ≡ among (a ∷ b ∷ []) (codes_of codes.now) }
{
    let (codes, _) = codes.as_chunks::<2>();
    codes.iter().any(|code| (a == code[0]) & (b == code[1]))
}

// Every code of s is one of the codes.
pub fn all_among(codes: &[u8], s: &[u8]) -> bool
    ensures { result ≡ all_among (λ c. among c (codes_of codes.now)) (codes_of s.now) }
{
    let (written, _) = s.as_chunks::<2>();
    written.iter().all(|code| is_one(codes, code[0], code[1]))
}

// No code of s stands there twice.
fn all_differ(s: &[u8]) -> bool
    ensures { result ≡ differ (codes_of s.now) }
{
    let mut left = s;
    while let [first, second, rest @ ..] = left {
        if is_one(rest, *first, *second) {
            return false;
        }
        left = rest;
    }
    true
}

// One to three different precipitations.
#[tactic(auto, using(crate::proofs::Letters::code_count))]
fn are_precipitations(s: &[u8]) -> bool
    ensures { result ≡ precipitations (codes_of s.now) }
{
    let n = s.len() / 2;
    if (1 <= n) & (n <= 3) {
        all_among(b"DZRASNSGICPLGRGSUP", s) & all_differ(s)
    } else {
        false
    }
}

// A single code, one of these.
#[tactic(auto, using(crate::proofs::Letters::code_count))]
fn is_single(codes: &[u8], s: &[u8]) -> bool
    ensures { result ≡ single (λ c. among c (codes_of codes.now)) (codes_of s.now) }
{
    if s.len() / 2 == 1 {
        all_among(codes, s)
    } else {
        false
    }
}

// Precipitations of these kinds only.
fn falls_as(codes: &[u8], s: &[u8]) -> bool
    ensures { result ≡ (precipitations (codes_of s.now) && all_among (λ c. among c (codes_of codes.now)) (codes_of s.now)) }
{
    if are_precipitations(s) {
        all_among(codes, s)
    } else {
        false
    }
}

// The codes suit the descriptor.
fn suit(a: u8, b: u8, s: &[u8]) -> bool
    ensures { result ≡ suits (a ∷ b ∷ []) (codes_of s.now) }
{
    if is_one(b"MIBCPR", a, b) {
        return is_single(b"FG", s);
    }
    if is_one(b"DRBL", a, b) {
        return is_single(b"DUSASN", s);
    }
    if is_one(b"SHTS", a, b) {
        return falls_as(b"RASNPLGSGR", s);
    }
    is_single(b"FG", s) | falls_as(b"DZRA", s)
}

// The codes under their descriptor, or bare, are joined as they may be.
#[tactic(auto, using(crate::proofs::Letters::code_count))]
pub fn is_right(d: Option<Code>, s: &[u8]) -> bool
    ensures { result ≡ right (under d (codes_of s.now)) }
{
    match d {
        None => is_single(b"BRFGFUVADUSAHZPOSQFCSSDS", s) | are_precipitations(s),
        Some(Code { first, second }) => {
            (is_one(b"TS", first, second) & (s.len() / 2 == 0)) | suit(first, second, s)
        }
    }
}

// They may stand after VC.
#[tactic(auto, using(crate::proofs::Letters::code_count))]
pub fn is_near(d: Option<Code>, s: &[u8]) -> bool
    ensures { result ≡ in_vicinity (under d (codes_of s.now)) }
{
    match d {
        None => is_single(b"DSSSFGFCPOVA", s),
        Some(Code { first, second }) => {
            (is_one(b"SHTS", first, second) & (s.len() / 2 == 0))
                | (is_one(b"BL", first, second) & is_single(b"DUSASN", s))
        }
    }
}

// They may stand after a sign.
pub fn takes_sign(heavy: bool, d: Option<Code>, s: &[u8]) -> bool
    ensures { result ≡ signed heavy (under d (codes_of s.now)) }
{
    match d {
        None => { are_precipitations(s) | is_single(b"DSSS", s) | (heavy & is_single(b"FCPO", s)) }
        Some(Code { first, second }) => { are_precipitations(s) & !is_one(b"DRBL", first, second) }
    }
}

// They may stand after this sign, or VC, or neither.
pub fn intensity_fits(i: Intensity, d: Option<Code>, s: &[u8]) -> bool
    ensures { result ≡ intensity_fits i (under d (codes_of s.now)) }
{
    match i {
        Intensity::None => is_right(d, s),
        Intensity::Light => is_right(d, s) & takes_sign(false, d, s),
        Intensity::Heavy => is_right(d, s) & takes_sign(true, d, s),
        Intensity::Vicinity => is_near(d, s),
    }
}

pub fn is_descriptor(a: u8, b: u8) -> bool
    ensures { result ≡ is_descriptor (a ∷ b ∷ []) }
{
    is_one(b"MIBCPRDRBLSHTSFZ", a, b)
}

// The descriptor that stands first, if one does.
#[tactic(auto, unfolding(crate::specs::Split::descriptor_of))]
pub fn descriptor_of(s: &[u8]) -> Option<Code>
    ensures { result ≡ descriptor_of s.now }
{
    let first = byte_at(s, 0);
    let second = byte_at(s, 1);
    if is_descriptor(first, second) {
        Some(Code { first, second })
    } else {
        None
    }
}

pub fn code_length(c: Option<Code>) -> usize
    ensures { result ≡ code_length c }
{
    match c {
        None => 0,
        Some(_) => 2,
    }
}

// The code number i, if there are so many.
#[tactic(auto, using(crate::proofs::Letters::code_there, crate::proofs::Letters::code_past))]
pub fn code_at(s: &[u8], i: usize) -> Option<Code>
    ensures { result ≡ code_at (codes_of s.now) i }
{
    if i < s.len() / 2 {
        let at = 2 * i;
        Some(Code {
            first: s[at],
            second: s[at + 1],
        })
    } else {
        None
    }
}
