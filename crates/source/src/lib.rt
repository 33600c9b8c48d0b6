// What bytes are listed as: line after line, put into a buffer.

#![tactic(auto)]

ghost use Rattle.std.specs.Prelude.{◌≡◌, ◌+◌, ◌/◌, ◌%◌, ◌<◌, ◌≤◌, true, ◌++◌, length, take, slice_set, Result};
ghost use Rattle.std.proofs.lemmas.List.Edits.{sets};
ghost use Rattle.rules.specs.Basics.{when◌then◌else◌, at};
ghost use Rattle.rules.specs.Text.{hex};
ghost use Rattle.assembly_rules.specs.Characters.{said};
ghost use Rattle.assembly_rules.specs.Listing.{letters_of, operand_text, text_of, listing};
ghost use Rattle.source.specs.Lines.{size_by, size_with, count_with, text_with, find_in, Spells, Lists};

use assembly_rules::{Fault, Shape};
use characters::hex;
use rules::Instruction;

// What an instruction is listed by.
#[derive(Clone, Copy)]
struct Found {
    name: u32,
    shape: Shape,
}

// How many bytes an instruction is long.
fn size_of(shape: Shape) -> usize
    ensures { result ≡ size_by shape }
{
    match shape {
        Shape::Implied | Shape::Accumulator => 1,
        Shape::Immediate
        | Shape::Zero
        | Shape::ZeroX
        | Shape::ZeroY
        | Shape::IndirectX
        | Shape::IndirectY
        | Shape::Relative => 2,
        Shape::Absolute | Shape::AbsoluteX | Shape::AbsoluteY | Shape::Indirect => 3,
    }
}

// How many characters its line has, with the mnemonic's three and the LF.
fn count_of(shape: Shape) -> usize
    ensures { result ≡ 4 + length (operand_text 0 0 0 shape) }
{
    match shape {
        Shape::Implied => 4,
        Shape::Accumulator => 6,
        Shape::Zero => 8,
        Shape::Immediate => 9,
        Shape::ZeroX | Shape::ZeroY | Shape::Relative | Shape::Absolute => 10,
        Shape::IndirectX
        | Shape::IndirectY
        | Shape::AbsoluteX
        | Shape::AbsoluteY
        | Shape::Indirect => 12,
    }
}

// Byte k; 0 behind the end.
fn byte_at(rest: &[u8], k: usize) -> u8
    ensures { result ≡ at rest.now k }
{
    rest.get(k).copied().unwrap_or(0)
}

// The instruction that some bytes begin with, where all its own are there. The compiler would keep it apart, since it is called at two
// places, and a listing took a fifth longer.
#[inline(always)]
fn find(rest: &[u8]) -> Option<Found>
    ensures { result ≡ find_in rest.now }
{
    match decode::decode(byte_at(rest, 0), byte_at(rest, 1), byte_at(rest, 2)) {
        Instruction::Undefined => None,
        found => {
            let name = names::name_of(found);
            let shape = names::shape_of(found);
            (size_of(shape) <= rest.len()).then_some(Found { name, shape })
        }
    }
}

// "a byte that starts no whole instruction is listed as a line of BYTE and its value": one byte, nine characters
fn size_with(found: Option<Found>) -> usize
    ensures { result ≡ size_with found }
{
    match found {
        Some(f) => size_of(f.shape),
        None => 1,
    }
}

fn count_with(found: Option<Found>) -> usize
    ensures { result ≡ count_with found }
{
    match found {
        Some(f) => count_of(f.shape),
        None => 9,
    }
}

// "34 no room": whether all lines fit.
fn measure(bytes: &[u8], room: usize) -> Result<usize, Fault>
    ensures { result ≡ listing (length (text_of 0 bytes.now)) room }
{
    let mut rest = bytes;
    let mut count = 0;
    while !rest.is_empty() {
        let found = find(rest);
        let more = count_with(found);
        if room - count < more {
            return Err(Fault::NoRoom);
        }
        count += more;
        rest = &rest[size_with(found)..];
    }
    Ok(count)
}

// A mnemonic's three.
fn letters_of(name: u32) -> [u8; 3]
    ensures { result ≡ letters_of name }
{
    [
        characters::digit((name / 1296 % 36) as u8),
        characters::digit((name / 36 % 36) as u8),
        characters::digit((name % 36) as u8),
    ]
}

// A branch's line: "a branch's target with four" digits.
fn branch_line(name: u32, to: u16) -> [u8; 12]
    ensures { Spells (letters_of name ++ said " $" ++ hex (to / 256) ++ hex (to % 256)) 10 result }
{
    let [x, y, z] = letters_of(name);
    let [high, low] = to.to_be_bytes();
    let [h, g] = hex(high);
    let [l, k] = hex(low);
    [x, y, z, b' ', b'$', h, g, l, k, b'\n', 0, 0]
}

// An instruction's line: "one space after the mnemonic and no other".
fn instruction_line(f: Found, a: u16, low: u8, high: u8) -> [u8; 12]
    ensures { Spells (letters_of f.name ++ operand_text a low high f.shape) (4 + length (operand_text 0 0 0 f.shape)) result }
{
    let [x, y, z] = letters_of(f.name);
    let [h, g] = hex(high);
    let [l, k] = hex(low);
    match f.shape {
        Shape::Implied => [x, y, z, b'\n', 0, 0, 0, 0, 0, 0, 0, 0],
        Shape::Accumulator => [x, y, z, b' ', b'A', b'\n', 0, 0, 0, 0, 0, 0],
        Shape::Immediate => [x, y, z, b' ', b'#', b'$', l, k, b'\n', 0, 0, 0],
        Shape::Zero => [x, y, z, b' ', b'$', l, k, b'\n', 0, 0, 0, 0],
        Shape::ZeroX => [x, y, z, b' ', b'$', l, k, b',', b'X', b'\n', 0, 0],
        Shape::ZeroY => [x, y, z, b' ', b'$', l, k, b',', b'Y', b'\n', 0, 0],
        Shape::IndirectX => [x, y, z, b' ', b'(', b'$', l, k, b',', b'X', b')', b'\n'],
        Shape::IndirectY => [x, y, z, b' ', b'(', b'$', l, k, b')', b',', b'Y', b'\n'],
        Shape::Relative => branch_line(f.name, addresses::target(a.wrapping_add(2), low)),
        Shape::Absolute => [x, y, z, b' ', b'$', h, g, l, k, b'\n', 0, 0],
        Shape::AbsoluteX => [x, y, z, b' ', b'$', h, g, l, k, b',', b'X', b'\n'],
        Shape::AbsoluteY => [x, y, z, b' ', b'$', h, g, l, k, b',', b'Y', b'\n'],
        Shape::Indirect => [x, y, z, b' ', b'(', b'$', h, g, l, k, b')', b'\n'],
    }
}

fn byte_line(v: u8) -> [u8; 12]
    ensures { Spells (said "BYTE $" ++ hex v) 9 result }
{
    let [l, k] = hex(v);
    [b'B', b'Y', b'T', b'E', b' ', b'$', l, k, b'\n', 0, 0, 0]
}

// The line of what was found at an address, its LF the last of the characters at the front of twelve.
fn line_of(found: Option<Found>, a: u16, rest: &[u8]) -> [u8; 12]
    ensures { Spells (text_with a rest.now found) (count_with found) result }
{
    match found {
        Some(f) => instruction_line(f, a, byte_at(rest, 1), byte_at(rest, 2)),
        None => byte_line(byte_at(rest, 0)),
    }
}

fn put_if(text: &mut [u8], place: usize, c: u8, here: bool)
    requires { here ≡ true → place < length text.old }
    ensures { text.new ≡ (when here then slice_set text.old place c else text.old) }
{
    if here {
        text[place] = c;
    }
}

// Puts a line's first characters at a place. A loop that ended with them would be a call of memcpy to the compiler, and the archive calls
// nothing.
#[tactic(auto, using(crate::proofs::Laws::put_more))]
fn put_line(text: &mut [u8], at: usize, line: &[u8; 12], count: usize)
    requires { (count ≤ length line.now) × (at + count ≤ length text.old) }
    ensures { text.new ≡ sets text.old at (take count line.now) }
{
    for (k, &c) in line.iter().enumerate() {
        put_if(text, at + k, c, k < count);
    }
}

fn put_lines(bytes: &[u8], start: u16, text: &mut [u8])
    requires { length (text_of start bytes.now) ≤ length text.old }
    ensures { text.new ≡ sets text.old 0 (text_of start bytes.now) }
{
    let mut rest = bytes;
    let mut a = start;
    let mut at = 0;
    while !rest.is_empty() {
        let found = find(rest);
        let line = line_of(found, a, rest);
        let count = count_with(found);
        let size = size_with(found);
        put_line(text, at, &line, count);
        at += count;
        a = a.wrapping_add(size as u16);
        rest = &rest[size..];
    }
}

// Lists bytes that stand at a start, and answers how many characters that is: "34 no room (the lister's only one); the output is then
// unchanged".
pub fn list(bytes: &[u8], start: u16, text: &mut [u8]) -> Result<usize, Fault>
    ensures { Lists (text_of start bytes.now) result text.old text.new }
{
    let count = measure(bytes, text.len())?;
    put_lines(bytes, start, text);
    Ok(count)
}
