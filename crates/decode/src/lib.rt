// The instruction that an opcode and the two bytes after it stand for, worked out of the opcode's three fields, aaabbbcc: a is the row of
// the operation, b the column of the mode, c the group. Who calls `decode` knows nothing of them.
//
//   c \ b  0      1  2   3  4      5    6    7     |  a  0    1    2    3    4    5    6    7
//   1      (z,X)  z  #   a  (z),Y  z,X  a,Y  a,X   |     ORA  AND  EOR  ADC  STA  LDA  CMP  SBC
//   2      #      z  0A  a  -      z,X  1A   a,X   |     ASL  ROL  LSR  ROR  STX  LDX  DEC  INC
//   0      #      z  08  a  10     z,X  18   a,X   |     -    BIT  -    -    STY  LDY  CPY  CPX
//
// Group 3 is undefined. 08 to 1A are columns without a mode, named after their first opcode: the branches at 10, one-byte instructions at
// the others. The exceptions, each in the function that makes it:
//
//   group_one      89 is undefined: "# 09 (not STA)"
//   bank_column    91 and B1 use the indirect bank: "Store A indirect Y", "Load A indirect Y" (document 002)
//   index_column   # is column 0, where document 003's offset misses it; STX and LDX are indexed by Y: document 003 has them as "y*", "Xyy"
//   with_mode      what is missing: "STX (z, a; z,Y), STY (z, a; z,X)", "CPX, CPY (#, z, a)", "DEC; INC (z; a; z,X; a,X)"
//   control        rows 0 to 3 of group 0: BRK, JSR, RTI, RTS in column 0, "BIT (z, a)", JMP a, JMP (a) in column 3
//   at_1a          9A and BA alone: TXS, TSX

#![tactic(auto)]

ghost use Rattle.std.specs.Prelude.{◌≡◌, eqb};
ghost use Rattle.rules.specs.declared.Reading.TheVariants.{Cpx, Cpy};
ghost use Rattle.rules.specs.Basics.{when◌then◌else◌};
ghost use Rattle.rules.specs.Opcodes.{decode, instruction_of};
ghost use Rattle.decode.specs.Fields.{mode_of, reading_of, changing_of, condition_of, at08, at0a, at18, at1a};
ghost use Rattle.decode.specs.Fields.{bank_column, index_column, change_row, group_one, with_mode, control, even_group, by_fields};

use rules::{Changing, Condition, Instruction, Internal, Mode, Reading, Stacking, Storing};

// The columns of `mode` that an exception leads to.
const IMMEDIATE: u8 = 2;

const ABSOLUTE_Y: u8 = 6;

const ZERO_Y: u8 = 8;

const INDIRECT_BANK_Y: u8 = 9;

// Eight columns by b, and two that no b says by itself.
fn mode(n: u8, low: u8, high: u8) -> Mode
    ensures { result ≡ mode_of n low high }
{
    match n {
        0 => Mode::IndirectX(low),
        1 => Mode::Zero(low),
        2 => Mode::Immediate(low),
        3 => Mode::Absolute(low, high),
        4 => Mode::IndirectY(low),
        5 => Mode::ZeroX(low),
        6 => Mode::AbsoluteY(low, high),
        7 => Mode::AbsoluteX(low, high),
        8 => Mode::ZeroY(low),
        _ => Mode::IndirectBankY(low),
    }
}

// Group 1 by a. Row 4 is STA, and nobody asks for it here.
fn reading(a: u8) -> Reading
    ensures { result ≡ reading_of a }
{
    match a {
        0 => Reading::Ora,
        1 => Reading::And,
        2 => Reading::Eor,
        3 => Reading::Adc,
        4 => Reading::Bit,
        5 => Reading::Lda,
        6 => Reading::Cmp,
        _ => Reading::Sbc,
    }
}

fn bank_column(a: u8, b: u8) -> u8
    ensures { result ≡ bank_column a b }
{
    // STA and LDA are rows 4 and 5.
    if a / 2 == 2 && b == 4 {
        INDIRECT_BANK_Y
    } else {
        b
    }
}

#[tactic(auto, unfolding(crate::specs::Fields::group_one))]
fn group_one(a: u8, b: u8, m: Mode) -> Instruction
    ensures { result ≡ group_one a b m }
{
    match (a, b) {
        (4, 2) => Instruction::Undefined,
        (4, _) => Instruction::Store(Storing::Sta, m),
        _ => Instruction::Read(reading(a), m),
    }
}

// From here on x is c's upper bit: 1 in group 2, 0 in group 0.
fn index_column(a: u8, b: u8, x: u8) -> u8
    ensures { result ≡ index_column a b x }
{
    match (b, x, a / 2) {
        (0, _, _) => IMMEDIATE,
        // In group 2 these are STX and LDX.
        (5, 1, 2) => ZERO_Y,
        (7, 1, 2) => ABSOLUTE_Y,
        _ => b,
    }
}

fn comparing(a: u8) -> Reading
    ensures { result ≡ (when eqb a 6 then Cpy else Cpx) }
{
    if a == 6 { Reading::Cpy } else { Reading::Cpx }
}

// STX and LDX stand before DEC and INC.
fn change_row(a: u8) -> u8
    ensures { result ≡ change_row a }
{
    if a < 4 { a } else { a - 2 }
}

fn changing(n: u8) -> Changing
    ensures { result ≡ changing_of n }
{
    match n {
        0 => Changing::Asl,
        1 => Changing::Rol,
        2 => Changing::Lsr,
        3 => Changing::Ror,
        4 => Changing::Dec,
        _ => Changing::Inc,
    }
}

#[tactic(auto, unfolding(crate::specs::Fields::with_mode))]
fn with_mode(a: u8, b: u8, x: u8, m: Mode) -> Instruction
    ensures { result ≡ with_mode a b x m }
{
    match (a, b, x) {
        (4, 0 | 7, _) => Instruction::Undefined,
        (4, _, 1) => Instruction::Store(Storing::Stx, m),
        (4, _, _) => Instruction::Store(Storing::Sty, m),
        (5, _, 1) => Instruction::Read(Reading::Ldx, m),
        (5, _, _) => Instruction::Read(Reading::Ldy, m),
        (_, 0, 1) => Instruction::Undefined,
        (_, _, 1) => Instruction::Change(changing(change_row(a)), m),
        (_, 4.., _) => Instruction::Undefined,
        _ => Instruction::Read(comparing(a), m),
    }
}

#[tactic(auto, unfolding(crate::specs::Fields::control))]
fn control(a: u8, b: u8, low: u8, high: u8) -> Instruction
    ensures { result ≡ control a b low high }
{
    match (b, a) {
        (0, 0) => Instruction::Brk,
        (0, 1) => Instruction::Jsr(low),
        (0, 2) => Instruction::AtStack(Stacking::Rti),
        (0, _) => Instruction::AtStack(Stacking::Rts),
        (_, 0) | (4.., _) => Instruction::Undefined,
        (_, 1) => Instruction::Read(Reading::Bit, mode(b, low, high)),
        (1, _) => Instruction::Undefined,
        (_, 2) => Instruction::Jump(low, high),
        _ => Instruction::JumpIndirect(low, high),
    }
}

// 08, 28, .., E8
fn at_08(a: u8) -> Instruction
    ensures { result ≡ at08 a }
{
    match a {
        0 => Instruction::AtStack(Stacking::Php),
        1 => Instruction::AtStack(Stacking::Plp),
        2 => Instruction::AtStack(Stacking::Pha),
        3 => Instruction::AtStack(Stacking::Pla),
        4 => Instruction::Implied(Internal::Dey),
        5 => Instruction::Implied(Internal::Tay),
        6 => Instruction::Implied(Internal::Iny),
        _ => Instruction::Implied(Internal::Inx),
    }
}

// 0A, 2A, .., EA
fn at_0a(a: u8) -> Instruction
    ensures { result ≡ at0a a }
{
    match a {
        0 => Instruction::Accumulator(Changing::Asl),
        1 => Instruction::Accumulator(Changing::Rol),
        2 => Instruction::Accumulator(Changing::Lsr),
        3 => Instruction::Accumulator(Changing::Ror),
        4 => Instruction::Implied(Internal::Txa),
        5 => Instruction::Implied(Internal::Tax),
        6 => Instruction::Implied(Internal::Dex),
        _ => Instruction::Implied(Internal::Nop),
    }
}

// 10, 30, .., F0
fn condition(a: u8) -> Condition
    ensures { result ≡ condition_of a }
{
    match a {
        0 => Condition::Bpl,
        1 => Condition::Bmi,
        2 => Condition::Bvc,
        3 => Condition::Bvs,
        4 => Condition::Bcc,
        5 => Condition::Bcs,
        6 => Condition::Bne,
        _ => Condition::Beq,
    }
}

// 18, 38, .., F8
fn at_18(a: u8) -> Instruction
    ensures { result ≡ at18 a }
{
    match a {
        0 => Instruction::Implied(Internal::Clc),
        1 => Instruction::Implied(Internal::Sec),
        2 => Instruction::Cli,
        3 => Instruction::Implied(Internal::Sei),
        4 => Instruction::Implied(Internal::Tya),
        5 => Instruction::Implied(Internal::Clv),
        6 => Instruction::Implied(Internal::Cld),
        _ => Instruction::Implied(Internal::Sed),
    }
}

// 1A, 3A, .., FA
fn at_1a(a: u8) -> Instruction
    ensures { result ≡ at1a a }
{
    match a {
        4 => Instruction::Txs,
        5 => Instruction::Implied(Internal::Tsx),
        _ => Instruction::Undefined,
    }
}

#[tactic(auto, unfolding(crate::specs::Fields::even_group))]
fn even_group(a: u8, b: u8, x: u8, low: u8, high: u8) -> Instruction
    ensures { result ≡ even_group a b x low high }
{
    match (b, x) {
        (4, 1) => Instruction::Undefined,
        (4, _) => Instruction::Branch(condition(a), low),
        (2, 1) => at_0a(a),
        (2, _) => at_08(a),
        (6, 1) => at_1a(a),
        (6, _) => at_18(a),
        // Group 2 has operations with a mode in every row, group 0 from row 4 on.
        _ if x == 1 || a >= 4 => with_mode(a, b, x, mode(index_column(a, b, x), low, high)),
        _ => control(a, b, low, high),
    }
}

// c's lower bit is set in groups 1 and 3.
#[tactic(auto, unfolding(crate::specs::Fields::by_fields))]
fn by_fields(opcode: u8, low: u8, high: u8) -> Instruction
    ensures { result ≡ by_fields opcode low high }
{
    let a = opcode / 32;
    let b = opcode / 4 % 8;
    let x = opcode / 2 % 2;
    match (opcode % 2, x) {
        (1, 1) => Instruction::Undefined,
        (1, _) => group_one(a, b, mode(bank_column(a, b), low, high)),
        _ => even_group(a, b, x, low, high),
    }
}

// "an operation with its addressing mode, and the mode with its operand". What is no operand of the instruction is not looked at.
pub fn decode(opcode: u8, low: u8, high: u8) -> Instruction
    ensures { result ≡ instruction_of (decode opcode) low high }
{
    by_fields(opcode, low, high)
}
