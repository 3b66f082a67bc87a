// Section 1 after Nddff: 00fff and the groups 1 to 9, each read at its place of the row, up to a stop word or the end.
ghost use Rattle.std.specs.Prelude.{◌≡◌, length, drop, Err};
ghost use Rattle.text.specs.Text.{tail_of};
ghost use Rattle.text.specs.Groups.{groups_from};
ghost use Rattle.text.specs.Refusals.{refused_with};
ghost use Rattle.shapes.specs.Pattern.{has_any};
ghost use Rattle.places.specs.Seek.{owed};
ghost use Rattle.places.specs.Engine.{musts_of};
ghost use Rattle.places.specs.Answer.{end_verdict};
ghost use Rattle.places.specs.Turn.{turn_at};
ghost use Rattle.synop_row.specs.Row.{row, stop_words};
ghost use Rattle.synop_section.specs.Answer.{section, answer};
ghost use Rattle.synop_section.specs.Section.{Says, said_onto, Leaves, SectionDone};
ghost use Rattle.synop_section.specs.declared.kinds.Next.TheVariants as next;

use crate::answer;
use crate::kinds::{Next, Reading, SectionRead};
use places::kinds::Turn;
use places::turn_by;
use record::surface::{Surface, Synop, Wind};
use record::values::Speed;
use section3::read::read_section3;
use synop_groups::kinds::Said;
use synop_groups::read;
use synop_row::kinds::Needs;
use synop_row::row;
use text::kinds::{Cut, Refusal, Refused};

// What the group says at its place.
fn said_at(place: usize, needs: Needs, g: &[u8]) -> Said
    ensures { Says needs place g.now result }
{
    match place {
        0 => read::read_speed(needs.speed, g),
        1 => read::read_air(g),
        2 => read::read_moisture(g),
        3 => read::read_pressure(g),
        4 => read::read_level(g),
        5 => read::read_tendency(g),
        6 => read::read_rainfall(!needs.rain, g),
        7 => read::read_weather(!needs.weather, g),
        8 => read::read_clouds(g),
        9 => read::read_clock(g),
        _ => Said::Refused(Refusal::Shape),
    }
}

// The surface with what a group says. What names the place and time is no part of it, and a refusal adds nothing.
pub fn with_said(said: Said, surface: Surface) -> Surface
    ensures { result ≡ said_onto said surface }
{
    let mut s = surface;
    match said {
        Said::Indicators(x) => s.indicators = x,
        Said::Wind(x) => s.wind = x,
        Said::Speed(n) => {
            let w = s.wind;
            let cover = w.cover;
            let direction = w.direction;
            let wind = Wind {
                cover,
                direction,
                speed: Speed::Is(n),
            };
            s.wind = wind;
        }
        Said::Air(x) => s.air = x,
        Said::Moisture(x) => s.moisture = x,
        Said::Pressure(x) => s.pressure = x,
        Said::Level(x) => s.level = x,
        Said::Tendency(x) => s.tendency = x,
        Said::Rainfall(x) => s.rainfall = x,
        Said::Weather(x) => s.weather = x,
        Said::Clouds(x) => s.clouds = x,
        Said::Clock(x) => s.clock = x,
        _ => {}
    }
    s
}

// The group's turn, where `count` groups stand at `place`.
fn decide(needs: Needs, place: usize, count: usize, g: &[u8]) -> Turn
    ensures { result ≡ turn_at (row needs) (has_any stop_words) place count g.now }
{
    if 10 <= place {
        return Turn::Refused(Refusal::Shape);
    }
    if row::is_stop_word(g) {
        return Turn::Halt;
    }
    turn_by(row::find(needs, place, count, g))
}

// A stop word, from `start` up to `end`: a required group is absent, section 3 follows, or the unread rest begins at the word.
fn leave(g: &[u8], start: usize, end: usize, needs: Needs, place: usize, count: usize) -> Next
    ensures { Leaves g.now start end needs place count result }
{
    let must = row::musts_of(needs);
    if places::is_owed(&must, place, count) {
        return Next::End(Err(Refused {
            refusal: Refusal::Absence,
            place: start,
        }));
    }
    if row::is_section3(g) {
        Next::Section3 { at: end }
    } else {
        Next::End(Ok(start))
    }
}

// The groups are over: what follows the "=" is refused first, an absence last.
fn finish(text: &[u8], needs: Needs, place: usize, count: usize) -> Next
    ensures { result ≡ next.End (end_verdict (tail_of text.now) (length text.now) (owed count (drop place (musts_of (row needs))))) }
{
    let must = row::musts_of(needs);
    Next::End(places::end_verdict(text, places::is_owed(&must, place, count)))
}

// ---- the surface with what follows it, which the loop hands over in one piece

fn end_section(next: Next, surface: Surface) -> SectionRead
    ensures { result ≡ record { next = next; surface = surface } }
{
    SectionRead { next, surface }
}

fn refuse_section(refusal: Refusal, place: usize, surface: Surface) -> SectionRead
    ensures { result ≡ record { next = next.End (Err (refused_with refusal place)); surface = surface } }
{
    end_section(Next::End(Err(Refused { refusal, place })), surface)
}

// The groups of section 1 from a position of the text on, by position, since where reading stops is the answer: `here` is the place of the last one read, `standing` how many groups stand there. The surface is
// the loop's own, and nothing of it is asked to find a group's place. What a group says is stored where it belongs, so that the surface is not copied for
// it; 00fff alone, which changes a part of the wind, is left to `with_said`.
fn read_groups(text: &[u8], from: usize, needs: Needs, earlier: Surface) -> SectionRead
    ensures { SectionDone text.now from needs earlier result }
{
    let mut surface = earlier;
    let mut here = 0;
    let mut standing = 0;
    let mut at = from;
    while at < text.len() {
        let Cut::Group { start, end } = text::next_group(text, at) else {
            return end_section(finish(text, needs, here, standing), surface);
        };
        let g = text::part(text, start, end);
        let turn = decide(needs, here, standing, g);
        match turn {
            Turn::Halt => return end_section(leave(g, start, end, needs, here, standing), surface),
            Turn::Refused(refusal) => return refuse_section(refusal, start, surface),
            Turn::At { place, count } => {
                let said = said_at(place, needs, g);
                here = place;
                standing = count + 1;
                at = end;
                match said {
                    Said::Refused(refusal) => return refuse_section(refusal, start, surface),
                    Said::Air(x) => surface.air = x,
                    Said::Moisture(x) => surface.moisture = x,
                    Said::Pressure(x) => surface.pressure = x,
                    Said::Level(x) => surface.level = x,
                    Said::Tendency(x) => surface.tendency = x,
                    Said::Rainfall(x) => surface.rainfall = x,
                    Said::Weather(x) => surface.weather = x,
                    Said::Clouds(x) => surface.clouds = x,
                    Said::Clock(x) => surface.clock = x,
                    _ => surface = with_said(said, surface),
                }
            }
        }
    }
    end_section(finish(text, needs, here, standing), surface)
}

// Section 1 from a position of the text on, and section 3 where it follows. The report is put together once, behind the loops, so that they copy none.
pub fn read_section(text: &[u8], from: usize, report: Synop) -> Reading
    ensures { result ≡ answer (section report (tail_of text.now) (length text.now) (groups_from text.now from)) }
{
    let earlier = report.surface;
    let needs = row::needs_of(earlier);
    let read = read_groups(text, from, needs, earlier);
    let next = read.next;
    let surface = read.surface;
    let mut r = report;
    r.surface = surface;
    match next {
        Next::End(verdict) => answer::by_verdict(verdict, r),
        Next::Section3 { at } => {
            let third = read_section3(text, at);
            let verdict = third.verdict;
            let section3 = third.section3;
            r.section3 = section3;
            answer::by_verdict(verdict, r)
        }
    }
}
