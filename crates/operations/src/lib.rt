// What is done with a byte that was read.

#![tactic(auto)]

mod sums;

ghost use Rattle.std.specs.Prelude.{◌≡◌, ◌<◌, length};
ghost use Rattle.rules.specs.Basics.{at};
ghost use Rattle.rules.specs.Arithmetic.{compare, bit_test};
ghost use Rattle.rules.specs.Operations.{with_p, used};
ghost use Rattle.state.specs.Makes.{Makes};

use rules::{Flags, Reading};

// "Compares set N, Z from the difference, C where no borrow."
fn compare(r: u8, m: u8, f: Flags) -> Flags
    ensures { result ≡ compare r m f }
{
    flags::nzc(r.wrapping_sub(m), m <= r, f)
}

// "BIT takes N, V from memory, Z from the AND."
fn bit_test(a: u8, m: u8, f: Flags) -> Flags
    ensures { result ≡ bit_test a m f }
{
    Flags {
        n: flags::has(m, 128),
        v: flags::has(m, 64),
        z: a & m == 0,
        ..f
    }
}

// The register of this place compared with a byte: of all registers only the flags change.
fn compared(state: &mut [u8; 16], register: usize, v: u8)
    requires { register < 16 }
    ensures { Makes (λ c. with_p (compare (at state.old register) v c.p) c) state.old state.new }
{
    let r = state[register];
    let f = state::flags_of(state);
    state::set_flags(state, compare(r, v, f))
}

// Each operation reads the registers that it needs, and no others.
pub fn used(o: Reading, v: u8, state: &mut [u8; 16])
    ensures { Makes (used o v) state.old state.new }
{
    match o {
        Reading::Ora => {
            let a = state[state::A];
            state::to(state, state::A, a | v)
        }
        Reading::And => {
            let a = state[state::A];
            state::to(state, state::A, a & v)
        }
        Reading::Eor => {
            let a = state[state::A];
            state::to(state, state::A, a ^ v)
        }
        Reading::Adc => {
            let a = state[state::A];
            let f = state::flags_of(state);
            state::to_result(state, sums::adc(a, v, f))
        }
        Reading::Bit => {
            let a = state[state::A];
            let f = state::flags_of(state);
            state::set_flags(state, bit_test(a, v, f))
        }
        Reading::Lda => state::to(state, state::A, v),
        Reading::Cmp => compared(state, state::A, v),
        Reading::Sbc => {
            let a = state[state::A];
            let f = state::flags_of(state);
            state::to_result(state, sums::sbc(a, v, f))
        }
        Reading::Ldx => state::to(state, state::X, v),
        Reading::Ldy => state::to(state, state::Y, v),
        Reading::Cpy => compared(state, state::Y, v),
        Reading::Cpx => compared(state, state::X, v),
    }
}
