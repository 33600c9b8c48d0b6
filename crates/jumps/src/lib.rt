// JSR and JMP (a). Each access has its number in the step.

#![tactic(auto)]

ghost use Rattle.std.specs.Prelude.{◌≤◌, length};
ghost use Rattle.rules.specs.declared.State.{State};
ghost use Rattle.rules.specs.Cycles.{execution};
ghost use Rattle.rules.specs.Operations.{with_pc, jsr, jump_indirect};
ghost use Rattle.wiring.specs.Wiring.{Stands, Ready};
ghost use Rattle.laws.specs.Goes.{Does};

use rules::Purpose;
use wiring::Wiring;

// "JSR: low, read at S, push PC+2 high, low, then high operand." PC+2 is pc here.
pub fn jsr(low: u8, pc: u16, state: &mut [u8; 16], w: Wiring, image: &mut [u8], list: &mut [u8])
    requires { Ready w (length image.old) (length list.old) }
    ensures { (s : State) → Stands execution s state.old w →
        Does (jsr low (with_pc pc s.cpu)) 2 s image.old list.old 6 state.new image.new
        list.new }
{
    let s = state[state::S];
    reads::read(
        Purpose::Wasted,
        state,
        w,
        image,
        list,
        2,
        addresses::stack(s),
    );
    writes::push_pc(state, w, image, list, 3, pc, s);
    let high = reads::read(Purpose::Operand, state, w, image, list, 5, pc);
    state::set_s(state, addresses::down(2, s));
    state::set_pc(state, addresses::join(low, high));
}

// "JMP (a): two operands, pointer"; document 02: "the second pointer byte is read in the same page, low byte wrapped"
pub fn jump_indirect(a: u16, state: &mut [u8; 16], w: Wiring, image: &[u8], list: &mut [u8])
    requires { Ready w (length image.now) (length list.old) }
    ensures { (s : State) → Stands execution s state.old w →
        Does (jump_indirect a s.cpu) 3 s image.now list.old 5 state.new image.now
        list.new }
{
    let next = addresses::old_page(a, 1);
    let to = reads::word_at(Purpose::Pointer, state, w, image, list, 3, a, next);
    state::set_pc(state, to);
}
