// The groups of a SYNOP or SHIP that are known by their position alone: which post each stands at, its shape, and what it says.
ghost use Rattle.std.specs.Prelude.{◌≡◌, ◌&&◌, get_or, length, Some};
ghost use Rattle.record.specs.Set.{set_station};
ghost use Rattle.synop.specs.Read.{is_call_sign, sign_of, site_onto, is_nil};
ghost use Rattle.synop.specs.Head.{named, post_of, said_by};

use crate::kinds::Post;
use figures::byte_at;
use record::surface::{CallSign, Position, Site};
use shapes::has_pattern;
use synop_groups::kinds::Said;
use synop_groups::read;
use synop_groups::sign::slots_fit;

// A call sign has 3 to 9 letters and figures.
pub fn is_call_sign(g: &[u8]) -> bool
    ensures { result ≡ is_call_sign g.now }
{
    let right = slots_fit(true, g);
    (3 <= g.len()) & (g.len() <= 9) & right
}

pub fn sign_of(g: &[u8]) -> CallSign
    ensures { result ≡ sign_of g.now }
{
    let letters = [
        byte_at(g, 0),
        byte_at(g, 1),
        byte_at(g, 2),
        byte_at(g, 3),
        byte_at(g, 4),
        byte_at(g, 5),
        byte_at(g, 6),
        byte_at(g, 7),
        byte_at(g, 8),
    ];
    CallSign {
        letters,
        length: g.len(),
    }
}

// How many groups are known by position, a ship's call sign apart?
pub fn count_of(ship: bool) -> usize
    ensures { result ≡ length (named ship) }
{
    if ship { 5 } else { 4 }
}

// YYGGiw IIiii or, after a ship's call sign, YYGGiw 99LaLaLa QcLoLoLoLo; then iRixhVV and Nddff.
pub fn post_at(ship: bool, number: usize) -> Post
    ensures { result ≡ get_or (named ship) number Post.Wind }
{
    if ship {
        match number {
            0 => Post::Time,
            1 => Post::Latitude,
            2 => Post::Longitude,
            3 => Post::Indicators { land: false },
            _ => Post::Wind,
        }
    } else {
        match number {
            0 => Post::Time,
            1 => Post::Station,
            2 => Post::Indicators { land: true },
            _ => Post::Wind,
        }
    }
}

// Has the group the shape of its post?
pub fn has_shape(post: Post, g: &[u8]) -> bool
    ensures { result ≡ (post_of post).has g.now }
{
    match post {
        Post::Latitude => has_pattern(g, b"99###"),
        _ => has_pattern(g, b"#####"),
    }
}

// Does NIL stand for the group of its post?
pub fn is_nil(post: Post, g: &[u8]) -> bool
    ensures { result ≡ ((post_of post).nil && is_nil g.now) }
{
    match post {
        Post::Indicators { land } => land & has_pattern(g, b"NIL"),
        _ => false,
    }
}

fn with_station(n: u32, s: Site) -> Site
    ensures { result ≡ set_station (Some n) s }
{
    let sign = s.sign;
    let position = s.position;
    let time = s.time;
    Site {
        station: Some(n),
        sign,
        position,
        time,
        nil: s.nil,
    }
}

// The site with what a group says of it.
pub fn with_site(said: Said, site: Site) -> Site
    ensures { result ≡ site_onto said site }
{
    match said {
        Said::Time(x) => {
            let mut s = site;
            s.time = x;
            s
        }
        Said::Station(n) => with_station(n, site),
        Said::Position(x) => {
            let mut s = site;
            s.position = x;
            s
        }
        _ => site,
    }
}

// What the group at a post says, after a position whose signs are still to come.
pub fn said_by(post: Post, position: Position, g: &[u8]) -> Said
    ensures { result ≡ said_by post position g.now }
{
    match post {
        Post::Time => read::read_time(g),
        Post::Station => read::read_station(g),
        Post::Latitude => read::read_latitude(g),
        Post::Longitude => read::read_longitude(position, g),
        Post::Indicators { land: _ } => read::read_indicators(g),
        Post::Wind => read::read_wind(g),
    }
}
