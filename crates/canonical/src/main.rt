// Reads one report on standard input and prints its canonical text or "refused N at P", and a line end. With the argument 2005 a TAF is read and written in
// the 2005 edition; with any other argument, or more than one, the line is "bad call".
#![tactic(auto)]

use answers::input::read_full;
use record::aerodrome::Edition;
use std::env::FillError;
use std::io;
use std::io::{Read, Write};
use std::rt::Env;

// The edition that the arguments name, where the call is a good one. An argument is asked for as bytes, since any bytes may stand in it.
fn edition_of(rt: &impl Env) -> Option<Edition> {
    // as many bytes as the word has, in which a longer one has no room
    let mut word = [0u8; 4];
    match rt.arg(1, &mut word) {
        Err(FillError::NotPresent) => Some(Edition::Present),
        Err(FillError::TooLong) => None,
        Ok(_) => {
            if word == *b"2005" && !has_argument(rt, 2) {
                Some(Edition::Of2005)
            } else {
                None
            }
        }
    }
}

fn has_argument(rt: &impl Env, i: usize) -> bool {
    !matches!(rt.arg(i, &mut [0u8; 1]), Err(FillError::NotPresent))
}

fn answer(input: &mut impl Read, out: &mut impl Write, edition: Edition) -> io::Result<()> {
    // one byte more than a text may have, so that a longer one is seen to be too long
    let mut text = [0u8; 2049];
    let n = read_full(input, &mut text)?;
    answers::say_answer_in(out, edition, &text[..n])
}

fn main(rt: HostRuntime) -> io::Result<()> {
    let out = &mut rt.stdout();
    match edition_of(&rt) {
        Some(edition) => answer(&mut rt.stdin(), out, edition),
        None => out.write_all(b"bad call\n"),
    }
}
