// One instruction: the bytes at PC are looked at, decoded, and what they say is performed, one line a bus cycle, in the order of time.

#![tactic(auto)]

mod addressing;

ghost use Rattle.std.specs.Prelude.{◌≡◌, ℕ, ◌+◌, ◌/◌, ◌%◌, ◌<◌, ◌≤◌, true, false, List, length};
ghost use Rattle.rules.specs.declared.State.{State};
ghost use Rattle.rules.specs.declared.Instruction.TheVariants.{Read, Accumulator, Implied, AtStack, Branch, Jump, JumpIndirect, Txs, Cli};
ghost use Rattle.rules.specs.Cycles.{execution};
ghost use Rattle.rules.specs.Bus.{world, images, look};
ghost use Rattle.rules.specs.Record.{record_of};
ghost use Rattle.rules.specs.Operations.{register_of, taken, perform};
ghost use Rattle.rules.specs.Flags.{flags_of};
ghost use Rattle.wiring.specs.Wiring.{Wired, Stands, Ready};
ghost use Rattle.laws.specs.Goes.{Goes, Does};
ghost use Rattle.laws.specs.Sizes.{size_in};
ghost use Rattle.processor.specs.Begun.{short};
ghost use Rattle.processor.specs.Conditions.{weight_of, sense_of};
ghost use Rattle.processor.specs.Rest.{high_in, high_of, past, rest, Alone, Fetched};
ghost use Rattle.processor.specs.Laid.{stored_at, rewritten, changed_at, Lays};
ghost use Rattle.processor.specs.Executed.{Begins, Executed};
ghost use Rattle.processor.specs.Found.{Found, second_for, begun};

use addressing::Reached;
use rules::{
    Changing, Condition, Instruction, Internal, Mode, Purpose, Reading, Stacking, Storing,
};
use wiring::Wiring;

fn register_of(o: Storing, state: &[u8; 16]) -> u8
    ensures { (s : State) → state.now ≡ record_of s → result ≡ register_of o s.cpu }
{
    match o {
        Storing::Sta => state[state::A],
        Storing::Stx => state[state::X],
        Storing::Sty => state[state::Y],
    }
}

fn store(
    o: Storing,
    m: Mode,
    at: Reached<u16>,
    state: &mut [u8; 16],
    w: Wiring,
    image: &mut [u8],
    list: &mut [u8],
)
    requires { (at.count < 7) × Ready w (length image.old) (length list.old) }
    ensures { (s : State) → Stands execution s state.old w →
        Does (stored_at o m at.value s.cpu) at.count s image.old list.old (at.count + 1)
        state.new image.new list.new }
{
    let there = addressing::wiring_of(m, state, w);
    let v = register_of(o, state);
    writes::write(
        Purpose::Data,
        state,
        there,
        image,
        list,
        at.count,
        at.value,
        v,
    );
}

// The two writes of "Shift/INC/DEC: read data, write it back, write the result"; v is what was read.
fn rewrite(
    o: Changing,
    k: usize,
    a: u16,
    v: u8,
    state: &mut [u8; 16],
    w: Wiring,
    image: &mut [u8],
    list: &mut [u8],
)
    requires { (k < 6) × Ready w (length image.old) (length list.old) }
    ensures { (s : State) → Stands execution s state.old w →
        v ≡ look images (world s.bus image.old) execution a →
        Does (rewritten o a v s.cpu) k s image.old list.old (k + 2) state.new image.new
        list.new }
{
    let f = state::flags_of(state);
    let made = arithmetic::changed(o, v, f);
    writes::write(Purpose::Wasted, state, w, image, list, k, a, v);
    writes::write(Purpose::Data, state, w, image, list, k + 1, a, made.value);
    let after = made.flags;
    state::set_flags(state, after);
}

fn change(
    o: Changing,
    at: Reached<u16>,
    state: &mut [u8; 16],
    w: Wiring,
    image: &mut [u8],
    list: &mut [u8],
)
    requires { (at.count < 5) × Ready w (length image.old) (length list.old) }
    ensures { (s : State) → Stands execution s state.old w →
        Does (changed_at o at.value s.cpu) at.count s image.old list.old (at.count + 3)
        state.new image.new list.new }
{
    let k = at.count;
    let a = at.value;
    let v = reads::read(Purpose::Data, state, w, image, list, k, a);
    rewrite(o, k + 1, a, v, state, w, image, list);
}

// What a store, a shift, INC or DEC does by its mode: its place is found, and there it is done. One function for both, so that `place` has
// one caller and is compiled into it.
fn lay(
    i: Instruction,
    m: Mode,
    pc: u16,
    state: &mut [u8; 16],
    w: Wiring,
    image: &mut [u8],
    list: &mut [u8],
) -> usize
    requires { (Lays i m × (short i ≡ true)) × Ready w (length image.old) (length list.old) }
    ensures { (result ≤ 7) × ((s : State) → Fetched (high_in m) s state.old image.old w pc →
        Does (rest i s.cpu) 2 s image.old list.old result state.new
        image.new list.new) }
{
    let at = addressing::place(m, pc, state, w, image, list);
    match i {
        Instruction::Store(o, _) => {
            store(o, m, at, state, w, image, list);
            at.count + 1
        }
        Instruction::Change(o, _) => {
            change(o, at, state, w, image, list);
            at.count + 3
        }
        _ => unreachable!(),
    }
}

// The flag that a branch looks at, as its weight in P.
fn flag_of(t: Condition) -> u8
    ensures { result ≡ weight_of t }
{
    match t {
        Condition::Bpl | Condition::Bmi => 128,
        Condition::Bvc | Condition::Bvs => 64,
        Condition::Bcc | Condition::Bcs => 1,
        Condition::Bne | Condition::Beq => 2,
    }
}

// Whether it is taken where the flag is set.
fn wants(t: Condition) -> bool
    ensures { result ≡ sense_of t }
{
    matches!(
        t,
        Condition::Bmi | Condition::Bvs | Condition::Bcs | Condition::Beq
    )
}

// When a branch is taken. A mask and a compare are one way for all eight; a match of eight tests is a jump more.
fn taken(t: Condition, p: u8) -> bool
    ensures { result ≡ taken t (flags_of p) }
{
    if p & flag_of(t) == 0 {
        return !wants(t);
    }
    wants(t)
}

// "Branch: offset; if taken, read the next instruction's address".
fn branch(
    t: Condition,
    o: u8,
    pc: u16,
    state: &mut [u8; 16],
    w: Wiring,
    image: &[u8],
    list: &mut [u8],
) -> usize
    requires { Ready w (length image.now) (length list.old) }
    ensures { (result ≤ 7) × ((s : State) → Stands execution s state.old w → pc ≡ s.cpu.pc →
        Does (perform (Branch t o) (past 2 s.cpu)) 2 s image.now list.old result state.new
        image.now list.new) }
{
    let next = pc.wrapping_add(2);
    if taken(t, state[state::P]) {
        let to = addresses::target(next, o);
        reads::read(Purpose::Wasted, state, w, image, list, 2, next);
        if to / 256 == next / 256 {
            state::set_pc(state, to);
            return 3;
        }
        reads::read(
            Purpose::Wasted,
            state,
            w,
            image,
            list,
            3,
            next / 256 * 256 + to % 256,
        );
        state::set_pc(state, to);
        return 4;
    }
    state::set_pc(state, next);
    2
}

fn read_into(
    o: Reading,
    m: Mode,
    pc: u16,
    state: &mut [u8; 16],
    w: Wiring,
    image: &[u8],
    list: &mut [u8],
) -> usize
    requires { Ready w (length image.now) (length list.old) }
    ensures { (result ≤ 7) × ((s : State) → Fetched (high_in m) s state.old image.now w pc →
        Does (rest (Read o m) s.cpu) 2 s image.now list.old result state.new image.now
        list.new) }
{
    let got = addressing::load(m, pc, state, w, image, list);
    operations::used(o, got.value, state);
    got.count
}

// ASL, ROL, LSR, ROR of A.
fn accumulated(o: Changing, pc: u16, state: &mut [u8; 16])
    ensures { Alone (Accumulator o) state.old pc state.new }
{
    addressing::past(1, pc, state);
    let a = state[state::A];
    let f = state::flags_of(state);
    state::to_result(state, arithmetic::changed(o, a, f))
}

fn implied(o: Internal, pc: u16, state: &mut [u8; 16])
    ensures { Alone (Implied o) state.old pc state.new }
{
    addressing::past(1, pc, state);
    internal::inside(o, state)
}

fn txs(pc: u16, state: &mut [u8; 16])
    ensures { Alone Txs state.old pc state.new }
{
    addressing::past(1, pc, state);
    let x = state[state::X];
    state::set_s(state, x)
}

fn cli(pc: u16, state: &mut [u8; 16])
    ensures { Alone Cli state.old pc state.new }
{
    addressing::past(1, pc, state);
    let f = state::flags_of(state);
    state::set_flags(state, flags::with_i(false, f))
}

fn at_stack(
    o: Stacking,
    pc: u16,
    state: &mut [u8; 16],
    w: Wiring,
    image: &mut [u8],
    list: &mut [u8],
) -> usize
    requires { Ready w (length image.old) (length list.old) }
    ensures { (result ≤ 7) × ((s : State) → Stands execution s state.old w → pc ≡ s.cpu.pc →
        Does (rest (AtStack o) s.cpu) 2 s image.old list.old result state.new image.new
        list.new) }
{
    addressing::past(1, pc, state);
    stacking::at_stack(o, state, w, image, list)
}

fn jump(low: u8, high: u8, pc: u16, state: &mut [u8; 16], w: Wiring, list: &mut [u8])
    requires { 56 ≤ length list.old }
    ensures { (s : State) (i : List ℕ) → Fetched (λ v. high) s state.old i w pc →
        Does (rest (Jump low high) s.cpu) 2 s i list.old 3 state.new i list.new }
{
    let a = addressing::absolute(low, high, pc, state, w, list);
    state::set_pc(state, a);
}

fn jump_indirect(
    low: u8,
    high: u8,
    pc: u16,
    state: &mut [u8; 16],
    w: Wiring,
    image: &[u8],
    list: &mut [u8],
)
    requires { Ready w (length image.now) (length list.old) }
    ensures { (s : State) → Fetched (λ v. high) s state.old image.now w pc →
        Does (rest (JumpIndirect low high) s.cpu) 2 s image.now list.old 5 state.new
        image.now list.new }
{
    let a = addressing::absolute(low, high, pc, state, w, list);
    jumps::jump_indirect(a, state, w, image, list);
}

// An instruction whose opcode and next byte were listed: the high byte of its address, its own accesses, and what it leaves. Answers the
// accesses made so far.
fn perform(
    i: Instruction,
    pc: u16,
    state: &mut [u8; 16],
    w: Wiring,
    image: &mut [u8],
    list: &mut [u8],
) -> usize
    requires { (short i ≡ true) × Ready w (length image.old) (length list.old) }
    ensures { (result ≤ 7) × ((s : State) → Fetched (high_of i) s state.old image.old w pc →
        Does (rest i s.cpu) 2 s image.old list.old result state.new
        image.new list.new) }
{
    match i {
        Instruction::Read(o, m) => read_into(o, m, pc, state, w, image, list),
        Instruction::Store(_, m) | Instruction::Change(_, m) => {
            lay(i, m, pc, state, w, image, list)
        }
        Instruction::Accumulator(o) => {
            accumulated(o, pc, state);
            2
        }
        Instruction::Implied(o) => {
            implied(o, pc, state);
            2
        }
        Instruction::AtStack(o) => at_stack(o, pc, state, w, image, list),
        Instruction::Branch(t, o) => branch(t, o, pc, state, w, image, list),
        Instruction::Jump(low, high) => {
            jump(low, high, pc, state, w, list);
            3
        }
        Instruction::JumpIndirect(low, high) => {
            jump_indirect(low, high, pc, state, w, image, list);
            5
        }
        Instruction::Jsr(low) => {
            let two = pc.wrapping_add(2);
            jumps::jsr(low, two, state, w, image, list);
            6
        }
        Instruction::Brk => {
            let next = pc.wrapping_add(1);
            sequence::brk(next, state, w, image, list);
            7
        }
        Instruction::Txs => {
            txs(pc, state);
            2
        }
        Instruction::Cli => {
            cli(pc, state);
            2
        }
        Instruction::Undefined => unreachable!(),
    }
}

// The three bytes at PC.
#[derive(Clone, Copy)]
struct Bytes {
    pub opcode: u8,
    pub low: u8,
    pub high: u8,
}

// They are looked at, unlisted.
fn fetch(state: &[u8; 16], w: Wiring, image: &[u8], pc: u16) -> Bytes
    requires { w.size ≤ length image.now }
    ensures { (s : State) → Stands execution s state.now w → pc ≡ s.cpu.pc → Found result s image.now }
{
    if w.plain <= pc && pc < 65534 {
        let at = w.base + pc as usize;
        return Bytes {
            opcode: image[at],
            low: image[at + 1],
            high: image[at + 2],
        };
    }
    let one = pc.wrapping_add(1);
    let two = pc.wrapping_add(2);
    Bytes {
        opcode: reads::look(state, w, image, pc),
        low: reads::look(state, w, image, one),
        high: reads::look(state, w, image, two),
    }
}

// What the byte behind the opcode is read for: an instruction of one byte wastes it.
fn second_for(i: Instruction) -> Purpose
    ensures { result ≡ second_for (size_in 2 i) }
{
    match i {
        Instruction::Read(_, _)
        | Instruction::Store(_, _)
        | Instruction::Change(_, _)
        | Instruction::Branch(_, _)
        | Instruction::Jump(_, _)
        | Instruction::JumpIndirect(_, _)
        | Instruction::Jsr(_) => Purpose::Operand,
        Instruction::Accumulator(_)
        | Instruction::Implied(_)
        | Instruction::AtStack(_)
        | Instruction::Brk
        | Instruction::Txs
        | Instruction::Cli
        | Instruction::Undefined => Purpose::Wasted,
    }
}

// The opcode and the byte behind it are listed.
fn begin(i: Instruction, f: Bytes, pc: u16, w: Wiring, list: &mut [u8])
    requires { 56 ≤ length list.old }
    ensures { (s : State) (m : List ℕ) → Wired execution w s.bus → pc ≡ s.cpu.pc → Found f s m →
        Goes (begun (size_in 2 i) s.cpu.pc) 0 s.bus m list.old f.low 2 s.bus m list.new }
{
    let one = pc.wrapping_add(1);
    listing::note_read(Purpose::Opcode, list, 0, pc, w.bank, f.opcode);
    listing::note_read(second_for(i), list, 1, one, w.bank, f.low);
}

// The instruction at PC. Answers the accesses made, or 0 where the opcode is undefined: then nothing has changed.
pub fn instruction(pins: u8, state: &mut [u8; 16], image: &mut [u8], list: &mut [u8]) -> usize
    requires { (56 ≤ length list.old) × ((65536 ≤ length image.old) × (length image.old % 65536 ≡ 0)) }
    ensures { (result ≤ 7) × ((s : State) → Begins s state.old pins (length image.old) →
        Executed s image.old list.old result state.new image.new list.new) }
{
    let w = wiring::wire(state, pins, image.len());
    let pc = state::pc_of(state);
    let f = fetch(state, w, image, pc);
    let i = decode::decode(f.opcode, f.low, f.high);
    if let Instruction::Undefined = i {
        return 0;
    }
    begin(i, f, pc, w, list);
    perform(i, pc, state, w, image, list)
}
