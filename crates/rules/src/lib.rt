// The types of documents 01 and 02: the processor, its bus, its instructions and the answers. What they mean stands in specs/.

#![tactic(auto)]

// The six flags of P.
#[derive(Clone, Copy)]
pub struct Flags {
    pub n: bool,
    pub v: bool,
    pub d: bool,
    pub i: bool,
    pub z: bool,
    pub c: bool,
}

// A byte, and the flags with it.
#[derive(Clone, Copy)]
pub struct Flagged {
    pub value: u8,
    pub flags: Flags,
}

// The processor's registers.
#[derive(Clone, Copy)]
pub struct Cpu {
    pub a: u8,
    pub x: u8,
    pub y: u8,
    pub s: u8,
    pub p: Flags,
    pub pc: u16,
}

// The bus beside the image: the part (2, 8 or 9), its registers at 0000 and 0001, the pins of a 6508, the protected pages c
// and the banks k of the image.
#[derive(Clone, Copy)]
pub struct Bus {
    pub part: u8,
    pub first: u8,
    pub second: u8,
    pub pins: u8,
    pub protected: u8,
    pub banks: u8,
}

// What a state record holds, with the bus's pins and banks, which come from beside it.
#[derive(Clone, Copy)]
pub struct State {
    pub cpu: Cpu,
    pub bus: Bus,
    pub nmi: bool,
    pub cycles: u32,
}

// An addressing mode with its operand: a byte, or an address, low byte first. IndirectBankY is (z),Y whose data lies in a 6509's indirect
// bank.
#[derive(Clone, Copy)]
pub enum Mode {
    IndirectX(u8),
    Zero(u8),
    Immediate(u8),
    Absolute(u8, u8),
    IndirectY(u8),
    ZeroX(u8),
    AbsoluteY(u8, u8),
    AbsoluteX(u8, u8),
    ZeroY(u8),
    IndirectBankY(u8),
}

// What is done with a byte that is read.
#[derive(Clone, Copy)]
pub enum Reading {
    Ora,
    And,
    Eor,
    Adc,
    Bit,
    Lda,
    Cmp,
    Sbc,
    Ldx,
    Ldy,
    Cpy,
    Cpx,
}

// Which register is stored.
#[derive(Clone, Copy)]
pub enum Storing {
    Sta,
    Stx,
    Sty,
}

// How a byte is changed.
#[derive(Clone, Copy)]
pub enum Changing {
    Asl,
    Rol,
    Lsr,
    Ror,
    Dec,
    Inc,
}

// When a branch is taken.
#[derive(Clone, Copy)]
pub enum Condition {
    Bpl,
    Bmi,
    Bvc,
    Bvs,
    Bcc,
    Bcs,
    Bne,
    Beq,
}

// What is done inside the processor. TXS and CLI stand by themselves in Instruction: admission has rules of their own for them.
#[derive(Clone, Copy)]
pub enum Internal {
    Clc,
    Sec,
    Tsx,
    Sei,
    Tya,
    Clv,
    Cld,
    Sed,
    Txa,
    Tax,
    Dex,
    Nop,
    Dey,
    Tay,
    Iny,
    Inx,
}

// What is done at the stack, by an instruction that is its opcode alone.
#[derive(Clone, Copy)]
pub enum Stacking {
    Php,
    Plp,
    Pha,
    Pla,
    Rti,
    Rts,
}

// An instruction, grouped by its shape on the bus: "an operation with its addressing mode, and the mode with its operand". Where an
// operation has one mode only, its case carries the operand itself. Of a JSR that is the low byte: the high one is read after the pushes.
// Undefined is what "the other 105" opcodes stand for. Cases are in the order of the opcode's fields where these tell them apart.
#[derive(Clone, Copy)]
pub enum Instruction {
    Read(Reading, Mode),
    Store(Storing, Mode),
    Change(Changing, Mode),
    Accumulator(Changing),
    Implied(Internal),
    AtStack(Stacking),
    Branch(Condition, u8),
    Jump(u8, u8),
    JumpIndirect(u8, u8),
    Jsr(u8),
    Brk,
    Txs,
    Cli,
    Undefined,
}

// What an access is for: document 02, "What each access was for".
#[derive(Clone, Copy)]
pub enum Purpose {
    Opcode,
    Operand,
    Wasted,
    Pointer,
    Data,
    Stack,
    Vector,
}

// What a step takes.
#[derive(Clone, Copy)]
pub enum Event {
    Res,
    Nmi,
    Irq,
    Execute,
}

// Why a call is refused, in the order of the documents' numbers, with the details.
#[derive(Clone, Copy)]
pub enum Refusal {
    RecordLength,
    Malformed,
    ImageLength,
    Lines,
    Room,
    Undefined { pc: u16, opcode: u8 },
    ScriptLength,
    FileLength,
    Admission,
    MapRecord(u16),
    Vectors,
    Place(u16),
    StoreAddress(u16),
    Stack(u16),
    Successor(u16),
    ListLength,
    ListRecord,
    Total,
}

// What the board is told of an answer: the number of document 01, and perhaps a small and a large detail.
#[derive(Clone, Copy)]
pub struct Numbers {
    pub number: u8,
    pub small: u8,
    pub large: u16,
}

// What the reader finds in a restart file: where the last whole record stands, and how many tail bytes follow.
#[derive(Clone, Copy)]
pub struct Found {
    pub at: u16,
    pub tail: u8,
}

// The reads and the writes of each page, and whether the list that was fed last is among them.
#[derive(Clone, Copy)]
pub struct Counting {
    pub answer: Result<(), Refusal>,
    pub reads: [u64; 256],
    pub writes: [u64; 256],
}
