// The page report. Lists of accesses come joined from standard input, or from the files that the arguments name, one list each.

#![tactic(auto)]

use rules::Counting;
use std::env::{Env, FillError};
use std::fs::{File, Files};
use std::io;
use std::io::Read;
use streams::{fill, or_tell};

const BLOCK: usize = 65536;

// The room for a file's name. The system opens none that is longer.
const NAME: usize = 4096;

// The system's number for a name that is too long.
const ENAMETOOLONG: i32 = 36;

// A proved loop has to end, and nothing says that the input does. So its turns are counted, to a number that no run reaches. No record is
// cut by the end of a block, unless the input ends there.
fn take_list(input: &mut impl Read, counts: Counting) -> io::Result<Counting> {
    let mut so_far = counts;
    let mut block = [0u8; BLOCK];
    for _ in 0..u64::MAX {
        let count = fill(input, &mut block)?;
        so_far = pages::next(so_far, &block[..count]);
        if count < BLOCK {
            break;
        }
    }
    Ok(so_far)
}

// The list in the file of this name.
fn take_file(rt: &impl Files, name: &str, counts: Counting) -> io::Result<Counting> {
    let mut file = File::open(rt, name)?;
    take_list(&mut file, counts)
}

// The list in the file of this name, or nothing where it cannot be read, which is told. The library's paths are UTF-8, so a file of
// another name is none that can be read.
fn take_named(
    rt: &(impl Files + Eprint + Alloc),
    name: &[u8],
    counts: Counting,
) -> io::Result<Option<Counting>> {
    match str::from_utf8(name) {
        Ok(name) => or_tell(rt, name, take_file(rt, name, counts)),
        Err(_e) => {
            eprintln!(rt; "a file's name: it must be UTF-8")?;
            Ok(None)
        }
    }
}

// The files in the order of the arguments, to the first that cannot be read or counted.
fn take_files(rt: &(impl Env + Files + Eprint + Alloc)) -> io::Result<Option<Counting>> {
    let mut name = [0u8; NAME];
    let mut counts = pages::none();
    for i in 1..usize::MAX {
        let size = match rt.arg(i, &mut name) {
            Ok(size) => size,
            Err(FillError::NotPresent) => break,
            Err(FillError::TooLong) => {
                let e = io::Error::from_raw_os_error(ENAMETOOLONG);
                return or_tell(rt, "a file's name", Err(e));
            }
        };
        let Some(taken) = take_named(rt, &name[..size], counts)? else {
            return Ok(None);
        };
        counts = taken;
        if counts.answer.is_err() {
            break;
        }
    }
    Ok(Some(counts))
}

fn has_files(rt: &impl Env) -> bool {
    !matches!(rt.arg(1, &mut []), Err(FillError::NotPresent))
}

fn take_input(rt: &(impl Env + Files + Input + Eprint + Alloc)) -> io::Result<Option<Counting>> {
    if has_files(rt) {
        return take_files(rt);
    }
    let counts = take_list(&mut rt.reader(), pages::none());
    or_tell(rt, "standard input", counts)
}

fn main(rt: HostRuntime) -> io::Result<()> {
    if let Some(counts) = take_input(&rt)? {
        let mut text = [0u8; 11543];
        let n = report::print(counts, &mut text);
        or_tell(&rt, "standard output", rt.write_all(&text[..n]))?;
    }
    Ok(())
}
