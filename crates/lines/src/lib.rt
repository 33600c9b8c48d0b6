// What a line of text means: the bytes that it makes, or what is wrong with it.

#![tactic(auto)]

ghost use Rattle.std.specs.Prelude.{◌≡◌, ◌≤◌, length, take};
ghost use Rattle.assembly_rules.specs.Lines.{content, opened, too_deep, alone_line, byte_line, word_line, address_line, branch_line};
ghost use Rattle.assembly_rules.specs.Lines.{plain_line, coded, byte_value, valued, blank, written, line_of};

use assembly_rules::{Fault, Line, Operand, Shape};

// No name at all, and BYTE, as numbers: letters are digits of base 36, behind a 1.
const NO_NAME: u32 = 1;

const BYTE: u32 = 2237954;

// Where a comment begins, or the line ends.
fn content(l: &[u8]) -> usize
    ensures { (content l.now ≡ take result l.now) × (result ≤ length l.now) }
{
    l.iter().position(|&c| c == b';').unwrap_or(l.len())
}

// Brackets that are open behind a character.
fn opened(n: u8, c: u8) -> u8
    requires { n ≤ 16 }
    ensures { result ≡ opened n c }
{
    match c {
        b'[' => n + 1,
        b']' => n.saturating_sub(1),
        _ => n,
    }
}

fn too_deep(s: &[u8]) -> bool
    ensures { result ≡ too_deep 0 s.now }
{
    let mut count = 0;
    for &c in s {
        count = opened(count, c);
        if 16 < count {
            return true;
        }
    }
    false
}

fn alone_line(name: u32, shape: Shape) -> Result<Line, Fault>
    ensures { result ≡ alone_line name shape }
{
    let opcode = mnemonics::opcode_of(name, shape).ok_or(Fault::NoSuchMode)?;
    Ok(Line::One(opcode))
}

// "a value too large for it"
fn byte_line(name: u32, shape: Shape, v: u16) -> Result<Line, Fault>
    ensures { result ≡ byte_line name shape v }
{
    if 256 <= v {
        return Err(Fault::NoSuchMode);
    }
    let opcode = mnemonics::opcode_of(name, shape).ok_or(Fault::NoSuchMode)?;
    Ok(Line::Two(opcode, v as u8))
}

fn word_line(name: u32, shape: Shape, v: u16) -> Result<Line, Fault>
    ensures { result ≡ word_line name shape v }
{
    let opcode = mnemonics::opcode_of(name, shape).ok_or(Fault::NoSuchMode)?;
    let [low, high] = v.to_le_bytes();
    Ok(Line::Three(opcode, low, high))
}

// "A value under 256 takes the zero-page form where the operation has one; an address written with four digits alone takes the absolute
// form."
fn address_line(name: u32, zero: Shape, absolute: Shape, v: u16, four: bool) -> Result<Line, Fault>
    ensures { result ≡ address_line name zero absolute v four }
{
    if four || 256 <= v {
        return word_line(name, absolute, v);
    }
    match mnemonics::opcode_of(name, zero) {
        Some(opcode) => Ok(Line::Two(opcode, v as u8)),
        None => word_line(name, absolute, v),
    }
}

// "Branch operands are target addresses."
fn branch_line(opcode: u8, address: u16, v: u16) -> Result<Line, Fault>
    ensures { result ≡ branch_line opcode address v }
{
    let offset = v.wrapping_sub(address.wrapping_add(2));
    if offset < 128 || 65408 <= offset {
        Ok(Line::Two(opcode, (offset % 256) as u8))
    } else {
        Err(Fault::BranchTooFar)
    }
}

// A sum alone: where a branch goes, or an address.
fn plain_line(address: u16, name: u32, v: u16, four: bool) -> Result<Line, Fault>
    ensures { result ≡ plain_line address name v four }
{
    match mnemonics::opcode_of(name, Shape::Relative) {
        Some(opcode) => branch_line(opcode, address, v),
        None => address_line(name, Shape::Zero, Shape::Absolute, v, four),
    }
}

fn coded(address: u16, name: u32, o: Operand) -> Result<Line, Fault>
    ensures { result ≡ coded address name o }
{
    match o {
        Operand::Nothing => alone_line(name, Shape::Implied),
        Operand::Accumulator => alone_line(name, Shape::Accumulator),
        Operand::Immediate(v) => byte_line(name, Shape::Immediate, v),
        Operand::Address(v, four) => plain_line(address, name, v, four),
        Operand::AddressX(v, four) => address_line(name, Shape::ZeroX, Shape::AbsoluteX, v, four),
        Operand::AddressY(v, four) => address_line(name, Shape::ZeroY, Shape::AbsoluteY, v, four),
        Operand::IndirectX(v) => byte_line(name, Shape::IndirectX, v),
        Operand::IndirectY(v) => byte_line(name, Shape::IndirectY, v),
        Operand::Indirect(v) => word_line(name, Shape::Indirect, v),
    }
}

fn byte_value(v: u16) -> Result<Line, Fault>
    ensures { result ≡ byte_value v }
{
    if 256 <= v {
        return Err(Fault::NoSuchMode);
    }
    Ok(Line::One(v as u8))
}

// Behind BYTE.
fn valued(o: Operand) -> Result<Line, Fault>
    ensures { result ≡ valued o }
{
    match o {
        Operand::Address(v, _four) => byte_value(v),
        _ => Err(Fault::NotALine),
    }
}

// Where there is no name.
fn blank(o: Operand) -> Result<Line, Fault>
    ensures { result ≡ blank o }
{
    match o {
        Operand::Nothing => Ok(Line::Nothing),
        _ => Err(Fault::NotALine),
    }
}

fn written(s: &[u8], address: u16) -> Result<Line, Fault>
    ensures { result ≡ written address s.now }
{
    let w = operands::name(s);
    let o = operands::operand(s, w.at).ok_or(Fault::NotALine)?;
    match w.value {
        NO_NAME => blank(o),
        BYTE => valued(o),
        name if mnemonics::is_mnemonic(name) => coded(address, name, o),
        _ => Err(Fault::NotALine),
    }
}

// "at it 33 first"
#[tactic(auto, unfolding(assembly_rules::specs::Lines::line_of))]
pub fn line_of(l: &[u8], address: u16) -> Result<Line, Fault>
    ensures { result ≡ line_of address l.now }
{
    let n = content(l);
    if too_deep(&l[..n]) {
        return Err(Fault::TooDeep);
    }
    written(&l[..n], address)
}
