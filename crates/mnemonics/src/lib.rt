// The opcode of a name and a shape, and which names are mnemonics. A name is a number: its letters as digits of base 36, behind a 1.

#![tactic(auto)]

ghost use Rattle.std.specs.Prelude.{◌<◌, ◌≡◌};
ghost use Rattle.assembly_rules.specs.Mnemonics.{opcode_of, is_mnemonic};
ghost use Rattle.mnemonics.specs.Rows.{row_of, chosen, opcode_in};

use assembly_rules::Shape;

// A mnemonic's row: from bit 8 on the set of its shapes, below that what all its opcodes are counted from.
#[tactic(auto, unfolding(crate::specs::Rows::known))]
fn row_of(name: u32) -> Option<u32>
    ensures { result ≡ row_of name }
{
    Some(match name {
        60096 => 0xEDC61, // ADC
        60457 => 0xEDC21, // AND
        60645 => 0x61A02, // ASL
        61356 => 0x10090, // BCC
        61372 => 0x100B0, // BCS
        61442 => 0x100F0, // BEQ
        61589 => 0x20820, // BIT
        61722 => 0x10030, // BMI
        61754 => 0x100D0, // BNE
        61833 => 0x10010, // BPL
        61904 => 0x100, // BRK
        62040 => 0x10050, // BVC
        62056 => 0x10070, // BVS
        62976 => 0x118, // CLC
        62977 => 0x1D8, // CLD
        62982 => 0x158, // CLI
        62995 => 0x1B8, // CLV
        63025 => 0xEDCC1, // CMP
        63141 => 0x20CE0, // CPX
        63142 => 0x20CC0, // CPY
        64020 => 0x618C2, // DEC
        64041 => 0x1CA, // DEX
        64042 => 0x188, // DEY
        65691 => 0xEDC41, // EOR
        70824 => 0x618E2, // INC
        70845 => 0x1E8, // INX
        70846 => 0x1C8, // INY
        72097 => 0x120040, // JMP
        72315 => 0x20014, // JSR
        74350 => 0xEDCA1, // LDA
        74373 => 0xA2CA2, // LDX
        74374 => 0x61CA0, // LDY
        74907 => 0x61A42, // LSR
        77353 => 0x1EA, // NOP
        78742 => 0xEDC01, // ORA
        79678 => 0x148, // PHA
        79693 => 0x108, // PHP
        79822 => 0x168, // PLA
        79837 => 0x128, // PLP
        82533 => 0x61A22, // ROL
        82539 => 0x61A62, // ROR
        82710 => 0x140, // RTI
        82720 => 0x160, // RTS
        83352 => 0xEDCE1, // SBC
        83460 => 0x138, // SEC
        83461 => 0x1F8, // SED
        83466 => 0x178, // SEI
        83998 => 0xED881, // STA
        84021 => 0x22882, // STX
        84022 => 0x21880, // STY
        84633 => 0x1AA, // TAX
        84634 => 0x1A8, // TAY
        85281 => 0x1BA, // TSX
        85438 => 0x18A, // TXA
        85456 => 0x19A, // TXS
        85474 => 0x198, // TYA
        _ => return None,
    })
}

// The opcode at an offset, where the row's set has the shape of this weight.
fn chosen(row: u32, weight: u32, offset: u32) -> Option<u8>
    requires { (0 < weight) × (offset < 256) }
    ensures { result ≡ chosen row weight offset }
{
    (row / weight % 2 == 1).then_some(((row % 256 + offset) % 256) as u8)
}

// The opcode that a row has in a shape, if any. # and a,Y are elsewhere in ORA's group, whose opcodes are odd.
fn opcode_in(row: u32, shape: Shape) -> Option<u8>
    ensures { result ≡ opcode_in row shape }
{
    let odd = row % 2;
    match shape {
        Shape::Implied => chosen(row, 0x100, 0x00),
        Shape::Accumulator => chosen(row, 0x200, 0x08),
        Shape::Immediate => chosen(row, 0x400, 8 * odd),
        Shape::Zero => chosen(row, 0x800, 0x04),
        Shape::ZeroX => chosen(row, 0x1000, 0x14),
        Shape::ZeroY => chosen(row, 0x2000, 0x14),
        Shape::IndirectX => chosen(row, 0x4000, 0x00),
        Shape::IndirectY => chosen(row, 0x8000, 0x10),
        Shape::Relative => chosen(row, 0x10000, 0x00),
        Shape::Absolute => chosen(row, 0x20000, 0x0C),
        Shape::AbsoluteX => chosen(row, 0x40000, 0x1C),
        Shape::AbsoluteY => chosen(row, 0x80000, 0x1C - 4 * odd),
        Shape::Indirect => chosen(row, 0x100000, 0x2C),
    }
}

// The opcode of this name and shape, if there is one.
#[tactic(auto, using(crate::proofs::Laws::opcode_there, crate::proofs::Laws::opcode_missing))]
pub fn opcode_of(name: u32, shape: Shape) -> Option<u8>
    ensures { result ≡ opcode_of name shape }
{
    opcode_in(row_of(name)?, shape)
}

#[tactic(auto, using(crate::proofs::Laws::mnemonic_same))]
pub fn is_mnemonic(name: u32) -> bool
    ensures { result ≡ is_mnemonic name }
{
    row_of(name).is_some()
}
