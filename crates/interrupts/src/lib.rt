// The interrupts and RES. Each access has its number in the step.

#![tactic(auto)]

ghost use Rattle.std.specs.Prelude.{◌<◌, ◌≤◌, length};
ghost use Rattle.rules.specs.declared.State.{State};
ghost use Rattle.rules.specs.Cycles.{execution};
ghost use Rattle.rules.specs.Interrupts.{interrupt, reset};
ghost use Rattle.wiring.specs.Wiring.{Stands, Ready};
ghost use Rattle.laws.specs.Goes.{Goes, Does};
ghost use Rattle.interrupts.specs.Reads.{two_reads, three_reads};

use rules::Purpose;
use wiring::Wiring;

// "read PC twice"
fn two_reads(state: &[u8; 16], w: Wiring, image: &[u8], list: &mut [u8], pc: u16)
    requires { Ready w (length image.now) (length list.old) }
    ensures { (t : State) → Stands execution t state.now w →
        Goes (two_reads pc) 0 t.bus image.now list.old tt 2 t.bus image.now list.new }
{
    reads::read(Purpose::Wasted, state, w, image, list, 0, pc);
    reads::read(Purpose::Wasted, state, w, image, list, 1, pc);
}

// "IRQ, NMI: read PC twice, push PC high, low, P (bit 4 clear), read the vector (FFFE, FFFA), set I."
pub fn interrupt(vector: u16, state: &mut [u8; 16], w: Wiring, image: &mut [u8], list: &mut [u8])
    requires { (vector < 65535) × Ready w (length image.old) (length list.old) }
    ensures { (s : State) → Stands execution s state.old w →
        Does (interrupt vector s.cpu) 0 s image.old list.old 7 state.new image.new
        list.new }
{
    let pc = state::pc_of(state);
    let s = state[state::S];
    let p = flags::byte_of(state::flags_of(state));
    two_reads(state, w, image, list, pc);
    sequence::push_three(state, w, image, list, pc, s, p);
    sequence::enter(vector, state, w, image, list);
}

// "three stack reads in place of pushes"
fn three_reads(state: &[u8; 16], w: Wiring, image: &[u8], list: &mut [u8], s: u8)
    requires { Ready w (length image.now) (length list.old) }
    ensures { (t : State) → Stands execution t state.now w →
        Goes (three_reads s) 2 t.bus image.now list.old tt 5 t.bus image.now list.new }
{
    let one = addresses::stack(addresses::down(1, s));
    let two = addresses::stack(addresses::down(2, s));
    reads::read(
        Purpose::Stack,
        state,
        w,
        image,
        list,
        2,
        addresses::stack(s),
    );
    reads::read(Purpose::Stack, state, w, image, list, 3, one);
    reads::read(Purpose::Stack, state, w, image, list, 4, two);
}

// "RES: the same with three stack reads in place of pushes, S lowered by 3, vector FFFC, I set, D kept"
pub fn reset(state: &mut [u8; 16], w: Wiring, image: &[u8], list: &mut [u8])
    requires { Ready w (length image.now) (length list.old) }
    ensures { (s : State) → Stands execution s state.old w →
        Does (reset s.cpu) 0 s image.now list.old 7 state.new
        image.now list.new }
{
    let pc = state::pc_of(state);
    let s = state[state::S];
    two_reads(state, w, image, list, pc);
    three_reads(state, w, image, list, s);
    sequence::enter(65532, state, w, image, list);
}
