// The names and shapes of the instructions. A name is a number: its letters as digits of base 36, behind a 1.

#![tactic(auto)]

ghost use Rattle.std.specs.Prelude.{◌≡◌};
ghost use Rattle.assembly_rules.specs.Mnemonics.{reading, storing, changing, condition, internal, stacking, name_of, mode_shape, shape_of};

use assembly_rules::Shape;
use rules::{Changing, Condition, Instruction, Internal, Mode, Reading, Stacking, Storing};

fn reading(o: Reading) -> u32
    ensures { result ≡ reading o }
{
    match o {
        Reading::Ora => 78742,
        Reading::And => 60457,
        Reading::Eor => 65691,
        Reading::Adc => 60096,
        Reading::Bit => 61589,
        Reading::Lda => 74350,
        Reading::Cmp => 63025,
        Reading::Sbc => 83352,
        Reading::Ldx => 74373,
        Reading::Ldy => 74374,
        Reading::Cpy => 63142,
        Reading::Cpx => 63141,
    }
}

fn storing(o: Storing) -> u32
    ensures { result ≡ storing o }
{
    match o {
        Storing::Sta => 83998,
        Storing::Stx => 84021,
        Storing::Sty => 84022,
    }
}

fn changing(o: Changing) -> u32
    ensures { result ≡ changing o }
{
    match o {
        Changing::Asl => 60645,
        Changing::Rol => 82533,
        Changing::Lsr => 74907,
        Changing::Ror => 82539,
        Changing::Dec => 64020,
        Changing::Inc => 70824,
    }
}

fn condition(o: Condition) -> u32
    ensures { result ≡ condition o }
{
    match o {
        Condition::Bpl => 61833,
        Condition::Bmi => 61722,
        Condition::Bvc => 62040,
        Condition::Bvs => 62056,
        Condition::Bcc => 61356,
        Condition::Bcs => 61372,
        Condition::Bne => 61754,
        Condition::Beq => 61442,
    }
}

fn internal(o: Internal) -> u32
    ensures { result ≡ internal o }
{
    match o {
        Internal::Clc => 62976,
        Internal::Sec => 83460,
        Internal::Tsx => 85281,
        Internal::Sei => 83466,
        Internal::Tya => 85474,
        Internal::Clv => 62995,
        Internal::Cld => 62977,
        Internal::Sed => 83461,
        Internal::Txa => 85438,
        Internal::Tax => 84633,
        Internal::Dex => 64041,
        Internal::Nop => 77353,
        Internal::Dey => 64042,
        Internal::Tay => 84634,
        Internal::Iny => 70846,
        Internal::Inx => 70845,
    }
}

fn stacking(o: Stacking) -> u32
    ensures { result ≡ stacking o }
{
    match o {
        Stacking::Php => 79693,
        Stacking::Plp => 79837,
        Stacking::Pha => 79678,
        Stacking::Pla => 79822,
        Stacking::Rti => 82710,
        Stacking::Rts => 82720,
    }
}

// 0 is no name.
pub fn name_of(i: Instruction) -> u32
    ensures { result ≡ name_of i }
{
    match i {
        Instruction::Read(o, _) => reading(o),
        Instruction::Store(o, _) => storing(o),
        Instruction::Change(o, _) => changing(o),
        Instruction::Accumulator(o) => changing(o),
        Instruction::Implied(o) => internal(o),
        Instruction::AtStack(o) => stacking(o),
        Instruction::Branch(t, _) => condition(t),
        Instruction::Jump(_, _) | Instruction::JumpIndirect(_, _) => 72097,
        Instruction::Jsr(_) => 72315,
        Instruction::Brk => 61904,
        Instruction::Txs => 85456,
        Instruction::Cli => 62982,
        Instruction::Undefined => 0,
    }
}

fn mode_shape(m: Mode) -> Shape
    ensures { result ≡ mode_shape m }
{
    match m {
        Mode::IndirectX(_) => Shape::IndirectX,
        Mode::Zero(_) => Shape::Zero,
        Mode::Immediate(_) => Shape::Immediate,
        Mode::Absolute(_, _) => Shape::Absolute,
        Mode::IndirectY(_) | Mode::IndirectBankY(_) => Shape::IndirectY,
        Mode::ZeroX(_) => Shape::ZeroX,
        Mode::AbsoluteY(_, _) => Shape::AbsoluteY,
        Mode::AbsoluteX(_, _) => Shape::AbsoluteX,
        Mode::ZeroY(_) => Shape::ZeroY,
    }
}

pub fn shape_of(i: Instruction) -> Shape
    ensures { result ≡ shape_of i }
{
    match i {
        Instruction::Read(_, m) | Instruction::Store(_, m) | Instruction::Change(_, m) =>
            mode_shape(m),
        Instruction::Accumulator(_) => Shape::Accumulator,
        Instruction::Branch(_, _) => Shape::Relative,
        Instruction::Jump(_, _) | Instruction::Jsr(_) => Shape::Absolute,
        Instruction::JumpIndirect(_, _) => Shape::Indirect,
        Instruction::Implied(_)
        | Instruction::AtStack(_)
        | Instruction::Brk
        | Instruction::Txs
        | Instruction::Cli
        | Instruction::Undefined => Shape::Implied,
    }
}
