// The rules of one instruction at a record of the map.

ghost use Rattle.std.specs.Prelude.{◌≡◌, ◌≤◌, Ok, Err};
ghost use Rattle.rules.specs.Basics.{when◌then◌else◌, address};
ghost use Rattle.admission_rules.specs.Admission.{outside, store_rules, goes_to, goes_on, goes_up, goes_down};
ghost use Rattle.admission_rules.specs.Admission.{calls, is_at_zero, rules_of};
ghost use Rattle.laws.specs.Sizes.{mode_size, size_in};

use crate::marks;
use admission_rules::{Mark, Successor, Successors};
use rules::{Instruction, Mode, Refusal, Stacking};

fn mode_size(mode: Mode) -> u16
    ensures { result ≡ mode_size mode }
{
    match mode {
        Mode::Absolute(_, _) | Mode::AbsoluteX(_, _) | Mode::AbsoluteY(_, _) => 3,
        _ => 2,
    }
}

// How many bytes an instruction is long.
pub(crate) fn size_of(instruction: Instruction) -> u16
    ensures { result ≡ size_in 3 instruction }
{
    match instruction {
        Instruction::Read(_, mode) | Instruction::Store(_, mode) | Instruction::Change(_, mode) =>
            mode_size(mode),
        Instruction::Branch(_, _) => 2,
        Instruction::Jump(_, _) | Instruction::JumpIndirect(_, _) | Instruction::Jsr(_) => 3,
        _ => 1,
    }
}

// "Each successor .. is marked with the same kind"
fn goes_to(m: Mark, address: u16, height: u16, more: u16, limit: u16) -> Successor
    ensures { result ≡ goes_to m address height more limit }
{
    Successor {
        address,
        kind: m.kind,
        height,
        more,
        limit,
    }
}

// "all others equal height, need at most this one"
fn goes_on(m: Mark, address: u16) -> Successor
    ensures { result ≡ goes_on m address }
{
    goes_to(m, address, m.height as u16, 0, m.need as u16)
}

// "PHA, PHP height one more, successor's need + 1 at most need"
fn goes_up(m: Mark, address: u16) -> Successor
    ensures { result ≡ goes_up m address }
{
    goes_to(m, address, m.height as u16 + 1, 1, m.need as u16)
}

// "PLA height one less, successor's need at most need + 1"
fn goes_down(m: Mark, address: u16) -> Successor
    requires { 1 ≤ m.height }
    ensures { result ≡ goes_down m address }
{
    goes_to(m, address, m.height as u16 - 1, 0, m.need as u16 + 1)
}

// "JSR's target is also a routine of height 0, its need + 2 at most this need."
fn calls(m: Mark, address: u16) -> Successor
    ensures { result ≡ calls m address }
{
    Successor {
        address,
        kind: marks::ROUTINE,
        height: 0,
        more: 2,
        limit: m.need as u16,
    }
}

// A rule, which holds or not.
fn require(holds: bool, e: Refusal) -> Result<(), Refusal>
    ensures { result ≡ (when holds then Ok tt else Err e) }
{
    if holds { Ok(()) } else { Err(e) }
}

// "not .. to 01FF"
fn outside(least: u16, low: u8, high: u8) -> bool
    ensures { result ≡ outside least (address low high) }
{
    !(least..=0x01FF).contains(&addresses::join(low, high))
}

// 14: "Stores, shifts, INC, DEC: absolute address not 0100 to 01FF; a,X or a,Y base not 0001 to 01FF"; and 13: "not .. 81, 91".
fn store_rules(mode: Mode, i: u16) -> Result<(), Refusal>
    ensures { result ≡ store_rules i mode }
{
    match mode {
        Mode::Immediate(_) | Mode::Zero(_) | Mode::ZeroX(_) | Mode::ZeroY(_) => Ok(()),
        Mode::Absolute(low, high) => require(outside(0x0100, low, high), Refusal::StoreAddress(i)),
        Mode::AbsoluteX(low, high) | Mode::AbsoluteY(low, high) => {
            require(outside(0x0001, low, high), Refusal::StoreAddress(i))
        }
        Mode::IndirectX(_) | Mode::IndirectY(_) | Mode::IndirectBankY(_) => Err(Refusal::Place(i)),
    }
}

fn is_at_zero(m: Mark, kind: u8) -> bool
    ensures { result ≡ is_at_zero m kind }
{
    m.kind == kind && m.height == 0
}

// The rules of an instruction at a record. `next` is the next address, `second` the second byte after the opcode.
pub(crate) fn rules_for(
    instruction: Instruction,
    second: u8,
    m: Mark,
    next: u16,
    i: u16,
) -> Result<Successors, Refusal>
    ensures { result ≡ rules_of m i next second instruction }
{
    let on = Successors::One(goes_on(m, next));
    let asked = match instruction {
        Instruction::Read(_, _) | Instruction::Accumulator(_) | Instruction::Implied(_) => on,
        Instruction::Store(_, mode) | Instruction::Change(_, mode) => {
            store_rules(mode, i)?;
            on
        }
        Instruction::AtStack(Stacking::Php | Stacking::Pha) => Successors::One(goes_up(m, next)),
        Instruction::AtStack(Stacking::Pla) => {
            require(m.height >= 1, Refusal::Stack(i))?;
            Successors::One(goes_down(m, next))
        }
        Instruction::AtStack(Stacking::Rts) => {
            require(is_at_zero(m, marks::ROUTINE), Refusal::Stack(i))?;
            Successors::None
        }
        Instruction::AtStack(Stacking::Rti) => {
            require(is_at_zero(m, marks::HANDLER), Refusal::Stack(i))?;
            Successors::None
        }
        Instruction::Branch(_, o) => Successors::Two(
            goes_on(m, next),
            goes_on(m, addresses::target(next, o)),
        ),
        Instruction::Jump(low, high) => Successors::One(goes_on(m, addresses::join(low, high))),
        Instruction::Jsr(low) => Successors::Two(
            goes_on(m, next),
            calls(m, addresses::join(low, second)),
        ),
        Instruction::Txs => {
            require(is_at_zero(m, marks::MAIN), Refusal::Stack(i))?;
            on
        }
        Instruction::Cli => {
            require(m.kind == marks::MAIN, Refusal::Stack(i))?;
            on
        }
        Instruction::AtStack(Stacking::Plp)
        | Instruction::JumpIndirect(_, _)
        | Instruction::Brk
        | Instruction::Undefined => {
            return Err(Refusal::Place(i));
        }
    };
    Ok(asked)
}
