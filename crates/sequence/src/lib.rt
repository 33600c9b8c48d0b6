// BRK, and what the interrupts have in common with it; RES ends as they do. Each access has its number in the step.

#![tactic(auto)]

ghost use Rattle.std.specs.Prelude.{◌<◌, ◌≤◌, length};
ghost use Rattle.rules.specs.declared.State.{State};
ghost use Rattle.rules.specs.Cycles.{execution};
ghost use Rattle.rules.specs.Operations.{with_pc, enter, brk};
ghost use Rattle.wiring.specs.Wiring.{Stands, Ready};
ghost use Rattle.laws.specs.Goes.{Goes, Does};
ghost use Rattle.sequence.specs.Pushes.{push_three};

use rules::Purpose;
use wiring::Wiring;

// "push PC high, low, P"
pub fn push_three(
    state: &[u8; 16],
    w: Wiring,
    image: &mut [u8],
    list: &mut [u8],
    pc: u16,
    s: u8,
    p: u8,
)
    requires { Ready w (length image.old) (length list.old) }
    ensures { (t : State) → Stands execution t state.now w →
        Goes (push_three pc s p) 2 t.bus image.old list.old tt 5 t.bus
        image.new list.new }
{
    writes::push_pc(state, w, image, list, 2, pc, s);
    writes::push(state, w, image, list, 4, addresses::down(2, s), p);
}

// How BRK, an interrupt and a reset end: S is lower by 3, "read the vector", "set I".
pub fn enter(vector: u16, state: &mut [u8; 16], w: Wiring, image: &[u8], list: &mut [u8])
    requires { (vector < 65535) × Ready w (length image.now) (length list.old) }
    ensures { (s : State) → Stands execution s state.old w →
        Does (enter vector s.cpu) 5 s image.now list.old 7 state.new image.now
        list.new }
{
    let s = state[state::S];
    let f = flags::with_i(true, state::flags_of(state));
    let to = reads::word_at(
        Purpose::Vector,
        state,
        w,
        image,
        list,
        5,
        vector,
        vector + 1,
    );
    state::set_flags(state, f);
    state::set_s(state, addresses::down(3, s));
    state::set_pc(state, to);
}

// "BRK: PC+1, push PC+2 high, low, P with bit 4 set, FFFE, FFFF; I set." PC+1 was read, and is pc here.
pub fn brk(pc: u16, state: &mut [u8; 16], w: Wiring, image: &mut [u8], list: &mut [u8])
    requires { Ready w (length image.old) (length list.old) }
    ensures { (s : State) → Stands execution s state.old w →
        Does (brk (with_pc pc s.cpu)) 2 s image.old list.old 7 state.new image.new
        list.new }
{
    let back = pc.wrapping_add(1);
    let s = state[state::S];
    let p = flags::with_bit_4(state::flags_of(state));
    push_three(state, w, image, list, back, s, p);
    enter(65534, state, w, image, list);
}
