// The assembler: a text from standard input, its bytes to standard output. The argument is the address of the first one.

#![tactic(auto)]

use arguments::only_start;
use assembly_rules::Fault;
use std::env::Env;
use std::io;
use streams::{fill, or_tell};

// One byte more than the longest text has: that shows an input that is too long.
const ROOM: usize = 4194305;

// "a refusal goes to standard error as E, its number, and of the assembler the line"
fn refuse(rt: &impl Eprint, e: Fault, line: usize) -> io::Result<()> {
    let number = faults::number_of(e);
    eprintln!(rt; "E {number} {line}")
}

fn assemble(rt: &(impl Print + Eprint + Alloc), text: &[u8], start: u16) -> io::Result<()> {
    let mut bytes = [0u8; 65536];
    match assembler::assemble(text, start, &mut bytes) {
        Ok(count) => {
            or_tell(rt, "standard output", rt.write_all(&bytes[..count]))?;
            Ok(())
        }
        Err(bad) => refuse(rt, bad.fault, bad.line),
    }
}

fn assemble_input(rt: &(impl Input + Print + Eprint + Alloc), start: u16) -> io::Result<()> {
    let mut text = [0u8; ROOM];
    match or_tell(rt, "standard input", fill(&mut rt.reader(), &mut text))? {
        Some(ROOM) => eprintln!(rt; "standard input: a text has at most 4,194,304 bytes"),
        Some(count) => assemble(rt, &text[..count], start),
        None => Ok(()),
    }
}

fn main(rt: HostRuntime) -> io::Result<()> {
    let mut room = [0u8; 4];
    let first = rt.arg(1, &mut room);
    let second = rt.arg(2, &mut []);
    match only_start(first, second, &room) {
        Some(start) => assemble_input(&rt, start),
        None => eprintln!(rt;
            "usage: assemble START <TEXT >BYTES, START in four hexadecimal digits"
        ),
    }
}
