// Words, numbers and figures on a writer.
use std::io;
use std::io::Write;

pub fn say(out: &mut impl Write, s: &[u8]) -> io::Result<()> {
    out.write_all(s)
}

pub fn number(out: &mut impl Write, n: u32) -> io::Result<()> {
    write!(out, "{n}")
}

// A number of tenths.
pub fn tenths(out: &mut impl Write, n: u32) -> io::Result<()> {
    number(out, n / 10)?;
    say(out, b".")?;
    number(out, n % 10)
}

// A number field of `width` figures, leading zeros written.
pub fn figures(out: &mut impl Write, width: usize, n: u32) -> io::Result<()> {
    let mut text = [0u8; 8];
    let end = figures::put::put_number(&mut text, 0, width, n);
    if end <= 8 {
        say(out, &text[..end])?;
    }
    Ok(())
}

// A signed number of tenths.
pub fn signed(out: &mut impl Write, t: i32) -> io::Result<()> {
    if figures::signed::is_negative(t) {
        say(out, b"-")?;
    }
    tenths(out, figures::signed::magnitude(t))
}

pub fn heading(out: &mut impl Write, name: &[u8]) -> io::Result<()> {
    say(out, b"\n")?;
    say(out, name)?;
    say(out, b"\n")
}

pub fn arrow(out: &mut impl Write) -> io::Result<()> {
    say(out, b" -> ")
}

pub fn line_end(out: &mut impl Write) -> io::Result<()> {
    say(out, b"\n")
}
