// Reading a SYNOP or SHIP, from behind AAXX or BBXX on: the groups known by position, then section 1 or what follows NIL.
ghost use Rattle.std.specs.Prelude.{◌≡◌, map, length};
ghost use Rattle.text.specs.Text.{tail_of};
ghost use Rattle.text.specs.Groups.{groups_from};
ghost use Rattle.synop_section.specs.Answer.{answer};
ghost use Rattle.synop.specs.Read.{cut_short, after_nil, walk, groups_read};
ghost use Rattle.synop.specs.Head.{named, post_of, synop_of};

use crate::head;
use record::surface::{Section3, Site, Surface, Synop};
use synop_groups::kinds::Said;
use synop_section::kinds::Reading;
use synop_section::{answer, section};
use text::kinds::{Cut, Refusal};

// After NIL only what may follow an "=" is left.
fn read_nil(text: &[u8], at: usize, report: Synop) -> Reading
    ensures { result ≡ answer (after_nil (tail_of text.now) (length text.now) report (groups_from text.now at)) }
{
    let next = text::next_group(text, at);
    match next {
        Cut::Group { start, end: _ } => answer::refuse(Refusal::Shape, start),
        Cut::End { at: _ } => {
            let tail = text::tail(text);
            match tail {
                Some(place) => answer::refuse(Refusal::Shape, place),
                None => {
                    let mut site = report.site;
                    site.nil = true;
                    let mut r = report;
                    r.site = site;
                    answer::accept(text.len(), r)
                }
            }
        }
    }
}

// The groups are over before a required one: what follows the "=" is refused first.
fn end_short(text: &[u8]) -> Reading
    ensures { result ≡ answer (cut_short (tail_of text.now) (length text.now)) }
{
    let tail = text::tail(text);
    match tail {
        Some(place) => answer::refuse(Refusal::Shape, place),
        None => answer::refuse(Refusal::Absence, text.len()),
    }
}

fn synop_of(ship: bool, site: Site, surface: Surface, section3: Section3) -> Synop
    ensures { result ≡ synop_of ship site surface section3 }
{
    Synop {
        ship,
        site,
        surface,
        section3,
    }
}

// The groups known by position, a ship's call sign apart, then section 1. What each group says goes into the loop's own site and surface.
fn read_posts(text: &[u8], at: usize, report: Synop) -> Reading
    ensures { result ≡ answer (walk (map post_of (named report.ship)) report (tail_of text.now) (length text.now) (groups_from text.now at)) }
{
    let ship = report.ship;
    let mut site = report.site;
    let mut surface = report.surface;
    let section3 = report.section3;
    let count = head::count_of(ship);
    let mut number = 0;
    let mut from = at;
    while number < count {
        let Cut::Group { start, end } = text::next_group(text, from) else {
            return end_short(text);
        };
        let g = text::part(text, start, end);
        let post = head::post_at(ship, number);
        if head::is_nil(post, g) {
            return read_nil(text, end, synop_of(ship, site, surface, section3));
        }
        if head::has_shape(post, g) {
            let position = site.position;
            let said = head::said_by(post, position, g);
            if let Said::Refused(refusal) = said {
                return answer::refuse(refusal, start);
            }
            site = head::with_site(said, site);
            surface = section::with_said(said, surface);
            number += 1;
            from = end;
        } else {
            return answer::refuse(Refusal::Shape, start);
        }
    }
    section::read_section(text, from, synop_of(ship, site, surface, section3))
}

// What the groups come to, from a position behind AAXX or, of a ship, BBXX on. A ship's call sign comes before the groups known by position, which are
// read by one call for both, so that the compiler makes the record where it is answered and copies none.
pub fn read_from(text: &[u8], at: usize, ship: bool) -> Reading
    ensures { result ≡ answer (groups_read ship (tail_of text.now) (length text.now) (groups_from text.now at)) }
{
    let mut report = answer::begin(ship);
    let mut from = at;
    if ship {
        let Cut::Group { start, end } = text::next_group(text, at) else {
            return end_short(text);
        };
        let g = text::part(text, start, end);
        if head::is_call_sign(g) {
            let mut site = report.site;
            let sign = head::sign_of(g);
            site.sign = sign;
            report.site = site;
            from = end;
        } else {
            return answer::refuse(Refusal::Shape, start);
        }
    }
    read_posts(text, from, report)
}
