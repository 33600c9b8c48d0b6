// What is done inside the processor, without a byte that was read.

#![tactic(auto)]

ghost use Rattle.std.specs.Prelude.{◌≡◌, ◌+◌, ◌%◌, length};
ghost use Rattle.rules.specs.Operations.{inside};
ghost use Rattle.state.specs.Makes.{Makes};

use rules::Internal;

// Each operation reads the registers that it needs, and no others. A flag is set or cleared where it stands in P.
pub fn inside(o: Internal, state: &mut [u8; 16])
    ensures { Makes (inside o) state.old state.new }
{
    match o {
        Internal::Clc => state[state::P] &= 254,
        Internal::Sec => state[state::P] |= 1,
        Internal::Tsx => {
            let s = state[state::S];
            state::to(state, state::X, s)
        }
        Internal::Sei => state[state::P] |= 4,
        Internal::Tya => {
            let y = state[state::Y];
            state::to(state, state::A, y)
        }
        Internal::Clv => state[state::P] &= 191,
        Internal::Cld => state[state::P] &= 247,
        Internal::Sed => state[state::P] |= 8,
        Internal::Txa => {
            let x = state[state::X];
            state::to(state, state::A, x)
        }
        Internal::Tax => {
            let a = state[state::A];
            state::to(state, state::X, a)
        }
        Internal::Dex => {
            let x = state[state::X];
            state::to(state, state::X, x.wrapping_sub(1))
        }
        Internal::Nop => {}
        Internal::Dey => {
            let y = state[state::Y];
            state::to(state, state::Y, y.wrapping_sub(1))
        }
        Internal::Tay => {
            let a = state[state::A];
            state::to(state, state::Y, a)
        }
        Internal::Iny => {
            let y = state[state::Y];
            state::to(state, state::Y, y.wrapping_add(1))
        }
        Internal::Inx => {
            let x = state[state::X];
            state::to(state, state::X, x.wrapping_add(1))
        }
    }
}
