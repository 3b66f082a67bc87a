// Answers many texts, a line each, so that another decoder's answers can be held to them. Standard input has how many texts there are, in four
// bytes, and then each text after its edition, a byte that is 1 where a TAF is of 2005, and its length, in two bytes; the higher byte is first.
#![tactic(auto)]

ghost use Rattle.std.specs.Prelude.{◌<◌, IfOk};

use answers::input::read_full;
use record::aerodrome::Edition;
use std::io;
use std::io::{Read, Write};

// More than any text has: where the input ends.
const NO_TEXT: usize = 65535;

fn wide(byte: u8) -> usize
    ensures { result < 256 }
{
    usize::from(byte)
}

fn number(two: &[u8; 2]) -> usize
    ensures { result < 65536 }
{
    wide(two[0]) * 256 + wide(two[1])
}

fn read_number(input: &mut impl Read) -> io::Result<usize>
    ensures { IfOk result (λ n. n < 65536) }
{
    let mut two = [0u8; 2];
    if read_full(input, &mut two)? < 2 {
        return Ok(NO_TEXT);
    }
    Ok(number(&two))
}

fn read_edition(input: &mut impl Read) -> io::Result<Edition> {
    let mut one = [0u8; 1];
    read_full(input, &mut one)?;
    Ok(if one[0] == 1 {
        Edition::Of2005
    } else {
        Edition::Present
    })
}

// Fills the text from the input and answers it.
fn answer_text(
    input: &mut impl Read,
    out: &mut impl Write,
    edition: Edition,
    text: &mut [u8],
) -> io::Result<()> {
    let n = read_full(input, text)?;
    answers::say_answer_in(out, edition, &text[..n])
}

// Whether a text of that length has room; it is then read and answered.
fn answer_within(
    input: &mut impl Read,
    out: &mut impl Write,
    edition: Edition,
    space: &mut [u8],
    length: usize,
) -> io::Result<bool> {
    if length > space.len() {
        return Ok(false);
    }
    answer_text(input, out, edition, &mut space[..length])?;
    Ok(true)
}

// Whether there was a further text; it is then answered.
fn answer_next(input: &mut impl Read, out: &mut impl Write) -> io::Result<bool> {
    let mut space = [0u8; 4096];
    let edition = read_edition(input)?;
    let length = read_number(input)?;
    answer_within(input, out, edition, &mut space, length)
}

fn main(rt: HostRuntime) -> io::Result<()> {
    let input = &mut rt.stdin();
    let out = &mut rt.stdout();
    let high = read_number(input)?;
    let low = read_number(input)?;
    for _ in 0..high * 65536 + low {
        if !answer_next(input, out)? {
            break;
        }
    }
    Ok(())
}
