// The accesses of each addressing mode, after the opcode and the byte behind it were listed. Each has its number in the step: a read's
// sixth argument.

ghost use Rattle.std.specs.Prelude.{◌≡◌, ℕ, ◌+◌, ◌%◌, ◌<◌, ◌≤◌, List, length};
ghost use Rattle.rules.specs.declared.State.{State};
ghost use Rattle.rules.specs.declared.Purpose.TheVariants.{Data};
ghost use Rattle.rules.specs.declared.Mode.TheVariants.{IndirectX};
ghost use Rattle.rules.specs.Cycles.{Bank, execution};
ghost use Rattle.rules.specs.Basics.{address, sum16};
ghost use Rattle.rules.specs.Addressing.{bank_of, get, old_page, pointer, zero_indexed, first_for, load_indexed, indexed, load, place};
ghost use Rattle.wiring.specs.Wiring.{Stands, Ready};
ghost use Rattle.laws.specs.Goes.{Goes};
ghost use Rattle.rules.specs.Record.{record_of};
ghost use Rattle.laws.specs.Sizes.{mode_size};
ghost use Rattle.processor.specs.Rest.{high_in, past, past_in, Fetched, Opens, Reaches};
ghost use Rattle.processor.specs.Rest.{load_zero_indexed, load_through, place_through};
ghost use Rattle.laws.proofs.Lengths.{place_most};

use rules::{Mode, Purpose};
use wiring::Wiring;

// A byte or an address that was found, and the accesses made so far.
#[derive(Clone, Copy)]
pub(crate) struct Reached<T> {
    pub value: T,
    pub count: usize,
}

// "Only the last one or two accesses of B1 and 91 (after the pointer) use the indirect bank."
pub(crate) fn wiring_of(m: Mode, state: &[u8; 16], w: Wiring) -> Wiring
    ensures size { result.size ≡ w.size }
    ensures stands { (s : State) → Stands execution s state.now w → Stands (bank_of m) s state.now result }
{
    if let Mode::IndirectBankY(_) = m {
        return wiring::indirect(state, w);
    }
    w
}

// PC behind the instruction's n bytes.
pub(crate) fn past(n: u16, pc: u16, state: &mut [u8; 16])
    ensures { (s : State) → state.old ≡ record_of s → pc ≡ s.cpu.pc → state.new ≡ record_of (past_in n s) }
{
    state::set_pc(state, pc.wrapping_add(n));
}

// The high byte of an address is listed, and PC is behind it.
fn third(high: u8, pc: u16, state: &mut [u8; 16], w: Wiring, list: &mut [u8])
    requires { 56 ≤ length list.old }
    ensures { (s : State) (i : List ℕ) → Fetched (λ v. high) s state.old i w pc →
        Opens 3 s i list.old state.new list.new }
{
    let at = pc.wrapping_add(2);
    listing::note_read(Purpose::Operand, list, 2, at, w.bank, high);
    past(3, pc, state);
}

// "pointer low, high (both in page zero)"
fn pointer(state: &[u8; 16], w: Wiring, image: &[u8], list: &mut [u8], k: usize, z: u8) -> u16
    requires { (k < 6) × Ready w (length image.now) (length list.old) }
    ensures { (s : State) → Stands execution s state.now w →
        Goes (pointer z) k s.bus image.now list.old result (k + 2) s.bus
        image.now list.new }
{
    let above = z.wrapping_add(1) as u16;
    reads::word_at(Purpose::Pointer, state, w, image, list, k, z as u16, above)
}

// "read at the old page with the summed low byte; then the data at the full sum"
fn indexed(
    state: &[u8; 16],
    w: Wiring,
    image: &[u8],
    list: &mut [u8],
    k: usize,
    a: u16,
    i: u8,
) -> u16
    requires { (k < 7) × Ready w (length image.now) (length list.old) }
    ensures { (s : State) (κ : Bank) → Stands κ s state.now w →
        Goes (indexed κ a i) k s.bus image.now list.old result (k + 1) s.bus image.now
        list.new }
{
    reads::read(
        Purpose::Wasted,
        state,
        w,
        image,
        list,
        k,
        addresses::old_page(a, i),
    );
    a.wrapping_add(i as u16)
}

// What a load's first read is for, near being "the old page with the summed low byte": it is the sum unless a page was crossed.
fn first_for(near: u16, sum: u16) -> Purpose
    ensures { (a i : ℕ) → near ≡ old_page a i → sum ≡ sum16 a i → result ≡ first_for a i }
{
    if sum != near {
        return Purpose::Wasted;
    }
    Purpose::Data
}

// "A load stops at that first read if no page was crossed"
fn load_indexed(
    state: &[u8; 16],
    w: Wiring,
    image: &[u8],
    list: &mut [u8],
    k: usize,
    a: u16,
    i: u8,
) -> Reached<u8>
    requires { (k < 6) × Ready w (length image.now) (length list.old) }
    ensures { (result.count ≤ k + 2) × ((s : State) (κ : Bank) → Stands κ s state.now w →
        Goes (load_indexed κ a i) k s.bus image.now list.old result.value result.count s.bus image.now
        list.new) }
{
    let near = addresses::old_page(a, i);
    let sum = a.wrapping_add(i as u16);
    let first = reads::read(first_for(near, sum), state, w, image, list, k, near);
    if sum == near {
        return Reached {
            value: first,
            count: k + 1,
        };
    }
    let second = reads::read(Purpose::Data, state, w, image, list, k + 1, sum);
    Reached {
        value: second,
        count: k + 2,
    }
}

// The address in two bytes, the second of which is listed; PC is behind it.
pub(crate) fn absolute(
    low: u8,
    high: u8,
    pc: u16,
    state: &mut [u8; 16],
    w: Wiring,
    list: &mut [u8],
) -> u16
    requires { 56 ≤ length list.old }
    ensures { (result ≡ address low high) × ((s : State) (i : List ℕ) → Fetched (λ v. high) s state.old i w pc →
        Opens 3 s i list.old state.new list.new) }
{
    third(high, pc, state, w, list);
    addresses::join(low, high)
}

// "read the unindexed zero-page address"
fn zero_indexed(
    z: u8,
    i: u8,
    pc: u16,
    state: &mut [u8; 16],
    w: Wiring,
    image: &[u8],
    list: &mut [u8],
) -> u8
    requires { Ready w (length image.now) (length list.old) }
    ensures { (s : State) → Stands execution s state.old w → pc ≡ s.cpu.pc →
        Reaches 2 (zero_indexed z i) s image.now list.old result 3 state.new list.new }
{
    past(2, pc, state);
    reads::read(Purpose::Wasted, state, w, image, list, 2, z as u16);
    z.wrapping_add(i)
}

// Where a store, a shift, INC or DEC finds its data by a,X or a,Y.
fn at_absolute_indexed(
    low: u8,
    high: u8,
    i: u8,
    pc: u16,
    state: &mut [u8; 16],
    w: Wiring,
    image: &[u8],
    list: &mut [u8],
) -> u16
    requires { Ready w (length image.now) (length list.old) }
    ensures { (s : State) → Fetched (λ v. high) s state.old image.now w pc →
        Reaches 3 (indexed execution (address low high) i) s image.now list.old result 4
        state.new list.new }
{
    let a = absolute(low, high, pc, state, w, list);
    indexed(state, w, image, list, 3, a, i)
}

// By (z,X).
fn at_indirect_x(
    z: u8,
    pc: u16,
    state: &mut [u8; 16],
    w: Wiring,
    image: &[u8],
    list: &mut [u8],
) -> u16
    requires { Ready w (length image.now) (length list.old) }
    ensures { (s : State) → Stands execution s state.old w → pc ≡ s.cpu.pc →
        Reaches 2 (place s.cpu (IndirectX z)) s image.now list.old result 5
        state.new list.new }
{
    let x = state[state::X];
    let at = zero_indexed(z, x, pc, state, w, image, list);
    pointer(state, w, image, list, 3, at)
}

// By (z),Y; there is the wiring of the bank that the data stands in.
fn at_indirect_y(
    z: u8,
    pc: u16,
    state: &mut [u8; 16],
    w: Wiring,
    there: Wiring,
    image: &[u8],
    list: &mut [u8],
) -> u16
    requires { Ready w (length image.now) (length list.old) × Ready there (length image.now) (length list.old) }
    ensures { (s : State) (κ : Bank) → Stands execution s state.old w → pc ≡ s.cpu.pc →
        Stands κ s state.old there →
        Reaches 2 (place_through κ z s.cpu.y) s image.now list.old result 5
        state.new list.new }
{
    past(2, pc, state);
    let a = pointer(state, w, image, list, 2, z);
    indexed(state, there, image, list, 4, a, state[state::Y])
}

// What a load finds by z.
fn from_zero(
    z: u8,
    pc: u16,
    state: &mut [u8; 16],
    w: Wiring,
    image: &[u8],
    list: &mut [u8],
) -> Reached<u8>
    requires { Ready w (length image.now) (length list.old) }
    ensures { (result.count ≤ 7) × ((s : State) → Stands execution s state.old w → pc ≡ s.cpu.pc →
        Reaches 2 (get Data z) s image.now list.old result.value result.count
        state.new list.new) }
{
    past(2, pc, state);
    Reached {
        value: reads::read(Purpose::Data, state, w, image, list, 2, z as u16),
        count: 3,
    }
}

// By z,X or z,Y.
fn from_zero_indexed(
    z: u8,
    i: u8,
    pc: u16,
    state: &mut [u8; 16],
    w: Wiring,
    image: &[u8],
    list: &mut [u8],
) -> Reached<u8>
    requires { Ready w (length image.now) (length list.old) }
    ensures { (result.count ≤ 7) × ((s : State) → Stands execution s state.old w → pc ≡ s.cpu.pc →
        Reaches 2 (load_zero_indexed z i) s image.now list.old result.value result.count
        state.new list.new) }
{
    let at = zero_indexed(z, i, pc, state, w, image, list);
    Reached {
        value: reads::read(Purpose::Data, state, w, image, list, 3, at as u16),
        count: 4,
    }
}

// By a.
fn from_absolute(
    low: u8,
    high: u8,
    pc: u16,
    state: &mut [u8; 16],
    w: Wiring,
    image: &[u8],
    list: &mut [u8],
) -> Reached<u8>
    requires { Ready w (length image.now) (length list.old) }
    ensures { (result.count ≤ 7) × ((s : State) → Fetched (λ v. high) s state.old image.now w pc →
        Reaches 3 (get Data (address low high)) s image.now list.old result.value result.count
        state.new list.new) }
{
    let a = absolute(low, high, pc, state, w, list);
    Reached {
        value: reads::read(Purpose::Data, state, w, image, list, 3, a),
        count: 4,
    }
}

// By (z,X).
fn from_indirect_x(
    z: u8,
    pc: u16,
    state: &mut [u8; 16],
    w: Wiring,
    image: &[u8],
    list: &mut [u8],
) -> Reached<u8>
    requires { Ready w (length image.now) (length list.old) }
    ensures { (result.count ≤ 7) × ((s : State) → Stands execution s state.old w → pc ≡ s.cpu.pc →
        Reaches 2 (load s.cpu (IndirectX z)) s image.now list.old result.value result.count
        state.new list.new) }
{
    let x = state[state::X];
    let at = zero_indexed(z, x, pc, state, w, image, list);
    let a = pointer(state, w, image, list, 3, at);
    Reached {
        value: reads::read(Purpose::Data, state, w, image, list, 5, a),
        count: 6,
    }
}

// By (z),Y.
fn from_indirect_y(
    z: u8,
    pc: u16,
    state: &mut [u8; 16],
    w: Wiring,
    there: Wiring,
    image: &[u8],
    list: &mut [u8],
) -> Reached<u8>
    requires { Ready w (length image.now) (length list.old) × Ready there (length image.now) (length list.old) }
    ensures { (result.count ≤ 7) × ((s : State) (κ : Bank) → Stands execution s state.old w → pc ≡ s.cpu.pc →
        Stands κ s state.old there →
        Reaches 2 (load_through κ z s.cpu.y) s image.now list.old result.value result.count
        state.new list.new) }
{
    past(2, pc, state);
    let a = pointer(state, w, image, list, 2, z);
    load_indexed(state, there, image, list, 4, a, state[state::Y])
}

// The byte that a load finds.
pub(crate) fn load(
    m: Mode,
    pc: u16,
    state: &mut [u8; 16],
    w: Wiring,
    image: &[u8],
    list: &mut [u8],
) -> Reached<u8>
    requires { Ready w (length image.now) (length list.old) }
    ensures { (result.count ≤ 7) × ((s : State) → Fetched (high_in m) s state.old image.now w pc →
        Reaches (mode_size m) (load (past (mode_size m) s.cpu) m) s image.now list.old result.value result.count
        state.new list.new) }
{
    match m {
        Mode::Immediate(v) => {
            past(2, pc, state);
            Reached { value: v, count: 2 }
        }
        Mode::Zero(z) => from_zero(z, pc, state, w, image, list),
        Mode::ZeroX(z) => from_zero_indexed(z, state[state::X], pc, state, w, image, list),
        Mode::ZeroY(z) => from_zero_indexed(z, state[state::Y], pc, state, w, image, list),
        Mode::Absolute(low, high) => from_absolute(low, high, pc, state, w, image, list),
        Mode::AbsoluteX(low, high) => {
            let a = absolute(low, high, pc, state, w, list);
            load_indexed(state, w, image, list, 3, a, state[state::X])
        }
        Mode::AbsoluteY(low, high) => {
            let a = absolute(low, high, pc, state, w, list);
            load_indexed(state, w, image, list, 3, a, state[state::Y])
        }
        Mode::IndirectX(z) => from_indirect_x(z, pc, state, w, image, list),
        Mode::IndirectY(z) | Mode::IndirectBankY(z) => {
            let there = wiring_of(m, state, w);
            from_indirect_y(z, pc, state, w, there, image, list)
        }
    }
}

// The address where a store or a shift/INC/DEC finds its data.
pub(crate) fn place(
    m: Mode,
    pc: u16,
    state: &mut [u8; 16],
    w: Wiring,
    image: &[u8],
    list: &mut [u8],
) -> Reached<u16>
    requires { Ready w (length image.now) (length list.old) }
    ensures { ((result.count ≤ 5) × (result.count ≤ mode_size m + place_most m))
        × ((s : State) → Fetched (high_in m) s state.old image.now w pc →
        Reaches (mode_size m) (place (past (mode_size m) s.cpu) m) s image.now list.old result.value result.count
        state.new list.new) }
{
    match m {
        Mode::Immediate(v) => {
            past(2, pc, state);
            Reached {
                value: v as u16,
                count: 2,
            }
        }
        Mode::Zero(z) => {
            past(2, pc, state);
            Reached {
                value: z as u16,
                count: 2,
            }
        }
        Mode::ZeroX(z) => Reached {
            value: zero_indexed(z, state[state::X], pc, state, w, image, list) as u16,
            count: 3,
        },
        Mode::ZeroY(z) => Reached {
            value: zero_indexed(z, state[state::Y], pc, state, w, image, list) as u16,
            count: 3,
        },
        Mode::Absolute(low, high) => Reached {
            value: absolute(low, high, pc, state, w, list),
            count: 3,
        },
        Mode::AbsoluteX(low, high) => Reached {
            value: at_absolute_indexed(low, high, state[state::X], pc, state, w, image, list),
            count: 4,
        },
        Mode::AbsoluteY(low, high) => Reached {
            value: at_absolute_indexed(low, high, state[state::Y], pc, state, w, image, list),
            count: 4,
        },
        Mode::IndirectX(z) => Reached {
            value: at_indirect_x(z, pc, state, w, image, list),
            count: 5,
        },
        Mode::IndirectY(z) | Mode::IndirectBankY(z) => {
            let there = wiring_of(m, state, w);
            Reached {
                value: at_indirect_y(z, pc, state, w, there, image, list),
                count: 5,
            }
        }
    }
}
