// The types of document 02's assembler and lister; no code. What they mean stands in specs/.

#![tactic(auto)]

// How an instruction's operand is written and coded: "modes written as in the data sheets".
#[derive(Clone, Copy)]
pub enum Shape {
    Implied,
    Accumulator,
    Immediate,
    Zero,
    ZeroX,
    ZeroY,
    IndirectX,
    IndirectY,
    Relative,
    Absolute,
    AbsoluteX,
    AbsoluteY,
    Indirect,
}

// What stands behind a name: nothing, A, or a sum with its signs. Of an address the bool says "written with four digits alone".
#[derive(Clone, Copy)]
pub enum Operand {
    Nothing,
    Accumulator,
    Immediate(u16),
    Address(u16, bool),
    AddressX(u16, bool),
    AddressY(u16, bool),
    IndirectX(u16),
    IndirectY(u16),
    Indirect(u16),
}

// Why a line, or a text, is refused.
#[derive(Clone, Copy)]
pub enum Fault {
    NotALine,
    NoSuchMode,
    BranchTooFar,
    TooDeep,
    NoRoom,
}

// The bytes that a line makes.
#[derive(Clone, Copy)]
pub enum Line {
    Nothing,
    One(u8),
    Two(u8, u8),
    Three(u8, u8, u8),
}

// What is wrong with a text, and in which line.
#[derive(Clone, Copy)]
pub struct BadLine {
    pub fault: Fault,
    pub line: usize,
}
