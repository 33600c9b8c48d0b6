// How the accesses of a step reach the image: worked out once, before the first of them. The state is the record's sixteen bytes.

#![tactic(auto)]

mod bank;

ghost use Rattle.std.specs.Prelude.{◌+◌, ◌*◌, ◌/◌, ◌%◌, ◌≤◌, ◌≡◌, length};
ghost use Rattle.rules.specs.declared.State.{State};
ghost use Rattle.rules.specs.Cycles.{execution, indirect};
ghost use Rattle.rules.specs.Basics.{when◌then◌else◌};
ghost use Rattle.rules.specs.Bus.{is6508};
ghost use Rattle.rules.specs.Record.{record_of};
ghost use Rattle.wiring.specs.Wiring.{Banked, Sound, Stands};

pub use bank::Wiring;

// The first two pages of the 6508 have a rule of their own; on the 6502 no address has.
fn plain_of(part: u8) -> u16
    ensures { result ≡ (when is6508 part then 512 else 0) }
{
    if part == 8 { 512 } else { 0 }
}

// "bank b is bank b modulo k of the image": k is a power of two, so that a mask does for the remainder.
fn base_of(bank: u8, size: usize) -> usize
    requires { (65536 ≤ size) × (size % 65536 ≡ 0) }
    ensures { (result + 65536 ≤ size) × (Banked size → result ≡ bank % (size / 65536) * 65536) }
{
    (bank as usize * 65536) & (size - 1)
}

// How a step's accesses go, in the execution bank.
pub fn wire(state: &[u8; 16], pins: u8, size: usize) -> Wiring
    requires { (65536 ≤ size) × (size % 65536 ≡ 0) }
    ensures size { result.size ≡ size }
    ensures stands { (s : State) → state.now ≡ record_of s → Sound s.bus → Banked size → s.bus.pins ≡ pins →
        s.bus.banks ≡ size / 65536 → Stands execution s state.now result }
{
    let part = state[0];
    if part == 9 {
        let bank = state[8];
        return Wiring {
            base: base_of(bank, size),
            size,
            plain: 2,
            bank,
            pins,
        };
    }
    Wiring {
        base: 0,
        size,
        plain: plain_of(part),
        bank: 0,
        pins,
    }
}

// The same in the indirect bank, which is one of its own on the 6509 alone.
pub fn indirect(state: &[u8; 16], w: Wiring) -> Wiring
    ensures size { result.size ≡ w.size }
    ensures stands { (s : State) → Stands execution s state.now w → Stands indirect s state.now result }
{
    if state[0] == 9 {
        let bank = state[9];
        return Wiring {
            base: base_of(bank, w.size),
            size: w.size,
            plain: w.plain,
            bank,
            pins: w.pins,
        };
    }
    w
}
