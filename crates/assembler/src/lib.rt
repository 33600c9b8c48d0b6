// What a text assembles to.

#![tactic(auto)]

ghost use Rattle.std.specs.Prelude.{◌≡◌, ◌+◌, ◌<◌, ◌≤◌, ◌∷◌, length, Result};
ghost use Rattle.std.proofs.lemmas.List.Edits.{sets};
ghost use Rattle.rules.specs.Basics.{when◌then◌else◌, sum16};
ghost use Rattle.assembly_rules.specs.Assembly.{lines_of, assembled, answer, left};
ghost use Rattle.assembler.specs.Passes.{bytes_of, fitted_to, step_to, Passes};
ghost use Rattle.assembler.specs.Cuts.{without_cr, Cuts};

use assembly_rules::{BadLine, Fault, Line};

// "a CR before it counts as space": what stands before a LF, without the CR that it may end with.
#[tactic(auto, using(crate::proofs::Laws::ends_in_cr, crate::proofs::Laws::ends_otherwise))]
fn without_cr(line: &[u8]) -> &[u8]
    ensures { result.now ≡ without_cr line.now }
{
    let Some((&last, front)) = line.split_last() else {
        return line;
    };
    if last == b'\r' { front } else { line }
}

// A text's first line, and the text behind it.
fn cut(text: &[u8]) -> (&[u8], &[u8])
    requires { 0 < length text.now }
    ensures { Cuts text.now result.0.now result.1.now }
{
    match text.iter().position(|&c| c == b'\n') {
        Some(end) => (without_cr(&text[..end]), &text[end + 1..]),
        None => (text, &[]),
    }
}

// "Addresses wrap at 65,536."
fn address_of(start: u16, count: usize) -> u16
    ensures { result ≡ sum16 start count }
{
    start.wrapping_add((count % 65536) as u16)
}

// So many bytes with those of the next line.
fn fitted(room: usize, count: usize, size: usize) -> Result<usize, Fault>
    requires { count ≤ room }
    ensures { result ≡ fitted_to room count size }
{
    if room - count < size {
        return Err(Fault::NoRoom);
    }
    Ok(count + size)
}

fn step_to(room: usize, count: usize, l: Line) -> Result<usize, Fault>
    requires { count ≤ room }
    ensures { result ≡ step_to room count l }
{
    match l {
        Line::Nothing => fitted(room, count, 0),
        Line::One(_a) => fitted(room, count, 1),
        Line::Two(_a, _b) => fitted(room, count, 2),
        Line::Three(_a, _b, _c) => fitted(room, count, 3),
    }
}

fn put_line(bytes: &mut [u8], at: usize, l: Line)
    requires { at + length (bytes_of l) ≤ length bytes.old }
    ensures { bytes.new ≡ sets bytes.old at (bytes_of l) }
{
    match l {
        Line::Nothing => {}
        Line::One(a) => {
            bytes[at] = a;
        }
        Line::Two(a, b) => {
            bytes[at] = a;
            bytes[at + 1] = b;
        }
        Line::Three(a, b, c) => {
            bytes[at] = a;
            bytes[at + 1] = b;
            bytes[at + 2] = c;
        }
    }
}

fn put_if(bytes: &mut [u8], at: usize, l: Line, writing: bool)
    requires { at + length (bytes_of l) ≤ length bytes.old }
    ensures { bytes.new ≡ (when writing then sets bytes.old at (bytes_of l) else bytes.old) }
{
    if writing {
        put_line(bytes, at, l);
    }
}

// Line after line. A first pass judges, so that a second one writes only what is whole.
fn pass(text: &[u8], start: u16, bytes: &mut [u8], writing: bool) -> Result<usize, BadLine>
    ensures { Passes (assembled start (length bytes.old) text.now) writing result bytes.old
        bytes.new }
{
    let mut rest = text;
    let mut n = 1;
    let mut count = 0;
    while !rest.is_empty() {
        let (line, behind) = cut(rest);
        let told = lines::line_of(line, address_of(start, count));
        let l = told.map_err(|fault| BadLine { fault, line: n })?;
        let total = step_to(bytes.len(), count, l).map_err(|fault| BadLine { fault, line: n })?;
        put_if(bytes, count, l, writing);
        count = total;
        n += 1;
        rest = behind;
    }
    Ok(count)
}

pub fn assemble(text: &[u8], start: u16, bytes: &mut [u8]) -> Result<usize, BadLine>
    ensures answered { result ≡ answer (assembled start (length bytes.old) text.now) }
    ensures left { bytes.new
        ≡ left (assembled start (length bytes.old) text.now) bytes.old }
{
    pass(text, start, bytes, false)?;
    pass(text, start, bytes, true)
}
