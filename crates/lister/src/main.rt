// The lister: bytes from standard input, their text to standard output. The argument is the address of the first one.

#![tactic(auto)]

use arguments::only_start;
use std::env::Env;
use std::io;
use streams::{fill, or_tell};

// One byte more than a whole memory has: that shows an input that is too long.
const ROOM: usize = 65537;

// "BYTE $02" and its LF: no byte is listed by more characters.
const TEXT_ROOM: usize = 589824;

// "34 no room (the lister's only one)", which no memory meets here.
fn refuse(rt: &impl Eprint) -> io::Result<()> {
    eprintln!(rt; "E 34")
}

// The text is lent whole, so that its length comes with it: no proof counts its zeros.
fn list(
    rt: &(impl Print + Eprint + Alloc),
    bytes: &[u8],
    start: u16,
    text: &mut [u8; TEXT_ROOM],
) -> io::Result<()> {
    match source::list(bytes, start, text) {
        Ok(count) => {
            or_tell(rt, "standard output", rt.write_all(&text[..count]))?;
            Ok(())
        }
        Err(_e) => refuse(rt),
    }
}

fn list_input(rt: &(impl Input + Print + Eprint + Alloc), start: u16) -> io::Result<()> {
    let mut bytes = [0u8; ROOM];
    match or_tell(rt, "standard input", fill(&mut rt.reader(), &mut bytes))? {
        Some(ROOM) => eprintln!(rt; "standard input: at most 65,536 bytes are listed"),
        Some(count) => list(rt, &bytes[..count], start, &mut [0u8; TEXT_ROOM]),
        None => Ok(()),
    }
}

fn main(rt: HostRuntime) -> io::Result<()> {
    let mut room = [0u8; 4];
    let first = rt.arg(1, &mut room);
    let second = rt.arg(2, &mut []);
    match only_start(first, second, &room) {
        Some(start) => list_input(&rt, start),
        None => eprintln!(rt; "usage: lister START <BYTES >TEXT, START in four hexadecimal digits"),
    }
}
