// What is done at the stack: pushes, pulls, RTS and RTI, after PC+1 was read. One line a bus cycle, in the order of time.

#![tactic(auto)]

ghost use Rattle.std.specs.Prelude.{◌≡◌, ◌+◌, ◌<◌, ◌≤◌, length};
ghost use Rattle.rules.specs.declared.State.{State};
ghost use Rattle.rules.specs.declared.Purpose.TheVariants.{Stack};
ghost use Rattle.rules.specs.declared.Stacking.TheVariants.{Plp, Pla};
ghost use Rattle.rules.specs.Basics.{sum8};
ghost use Rattle.rules.specs.Cycles.{execution};
ghost use Rattle.rules.specs.Operations.{with_s, with_pc, stack, push, rts, rti, at_stack};
ghost use Rattle.state.specs.Makes.{Makes};
ghost use Rattle.wiring.specs.Wiring.{Stands, Ready};
ghost use Rattle.laws.specs.Goes.{Goes, Does};
ghost use Rattle.rules.specs.Addressing.{word_at};
ghost use Rattle.stacking.specs.Pulled.{pulled_at};

use rules::{Purpose, Stacking};
use wiring::Wiring;

// "Push: PC+1, write at S."
fn push(v: u8, state: &mut [u8; 16], w: Wiring, image: &mut [u8], list: &mut [u8])
    requires { Ready w (length image.old) (length list.old) }
    ensures { (s : State) → Stands execution s state.old w →
        Does (push v s.cpu) 2 s image.old list.old 3 state.new
        image.new list.new }
{
    let s = state[state::S];
    writes::push(state, w, image, list, 2, s, v);
    state::set_s(state, addresses::down(1, s));
}

// S after k pulls.
fn up(k: u8, s: u8) -> u8
    ensures { result ≡ sum8 s k }
{
    s.wrapping_add(k)
}

// "read at S, read at S+1"
fn pulled(state: &[u8; 16], w: Wiring, image: &[u8], list: &mut [u8], s: u8) -> u8
    requires { Ready w (length image.now) (length list.old) }
    ensures { (t : State) → Stands execution t state.now w →
        Goes (pulled_at s) 2 t.bus image.now list.old result 4 t.bus image.now list.new }
{
    let above = addresses::stack(up(1, s));
    reads::read(
        Purpose::Wasted,
        state,
        w,
        image,
        list,
        2,
        addresses::stack(s),
    );
    reads::read(Purpose::Stack, state, w, image, list, 3, above)
}

// "PLP, RTI keep 5 set, 4 clear"
fn plp(state: &mut [u8; 16], w: Wiring, image: &[u8], list: &mut [u8])
    requires { Ready w (length image.now) (length list.old) }
    ensures { (s : State) → Stands execution s state.old w →
        Does (at_stack Plp s.cpu) 2 s image.now list.old 4 state.new image.now
        list.new }
{
    let s = state[state::S];
    let p = pulled(state, w, image, list, s);
    state::set_s(state, up(1, s));
    state::set_flags(state, flags::flags_of(p));
}

fn pla(state: &mut [u8; 16], w: Wiring, image: &[u8], list: &mut [u8])
    requires { Ready w (length image.now) (length list.old) }
    ensures { (s : State) → Stands execution s state.old w →
        Does (at_stack Pla s.cpu) 2 s image.now list.old 4 state.new image.now
        list.new }
{
    let s = state[state::S];
    let v = pulled(state, w, image, list, s);
    state::set_s(state, up(1, s));
    state::to(state, state::A, v);
}

// S and PC together.
fn set_s_pc(state: &mut [u8; 16], s: u8, pc: u16)
    ensures { Makes (λ c. with_pc pc (with_s s c)) state.old state.new }
{
    state::set_s(state, s);
    state::set_pc(state, pc);
}

// Two bytes from S + 1 and S + 2, as an address.
fn word_above(state: &[u8; 16], w: Wiring, image: &[u8], list: &mut [u8], k: usize, s: u8) -> u16
    requires { (k < 6) × Ready w (length image.now) (length list.old) }
    ensures { (t : State) → Stands execution t state.now w →
        Goes (word_at Stack (stack (sum8 s 1)) (stack (sum8 s 2))) k t.bus image.now list.old result (k + 2) t.bus
        image.now list.new }
{
    let one = addresses::stack(up(1, s));
    let two = addresses::stack(up(2, s));
    reads::word_at(Purpose::Stack, state, w, image, list, k, one, two)
}

// "RTS: PC+1, read at S, pull low, high, read there; PC is one more."
fn rts(state: &mut [u8; 16], w: Wiring, image: &[u8], list: &mut [u8])
    requires { Ready w (length image.now) (length list.old) }
    ensures { (s : State) → Stands execution s state.old w →
        Does (rts s.cpu) 2 s image.now list.old 6 state.new image.now list.new }
{
    let s = state[state::S];
    reads::read(
        Purpose::Wasted,
        state,
        w,
        image,
        list,
        2,
        addresses::stack(s),
    );
    let a = word_above(state, w, image, list, 3, s);
    reads::read(Purpose::Wasted, state, w, image, list, 5, a);
    set_s_pc(state, up(2, s), a.wrapping_add(1));
}

// "RTI: PC+1, read at S, pull P, low, high."
fn rti(state: &mut [u8; 16], w: Wiring, image: &[u8], list: &mut [u8])
    requires { Ready w (length image.now) (length list.old) }
    ensures { (s : State) → Stands execution s state.old w →
        Does (rti s.cpu) 2 s image.now list.old 6 state.new image.now list.new }
{
    let s = state[state::S];
    let two = addresses::stack(up(2, s));
    let three = addresses::stack(up(3, s));
    let p = pulled(state, w, image, list, s);
    let to = reads::word_at(Purpose::Stack, state, w, image, list, 4, two, three);
    state::set_flags(state, flags::flags_of(p));
    set_s_pc(state, up(3, s), to);
}

// Answers the accesses made so far. PHP pushes "bits 4, 5 set".
pub fn at_stack(
    o: Stacking,
    state: &mut [u8; 16],
    w: Wiring,
    image: &mut [u8],
    list: &mut [u8],
) -> usize
    requires { Ready w (length image.old) (length list.old) }
    ensures { (result ≤ 7) × ((s : State) → Stands execution s state.old w →
        Does (at_stack o s.cpu) 2 s image.old list.old result state.new image.new
        list.new) }
{
    match o {
        Stacking::Php => {
            let p = flags::with_bit_4(state::flags_of(state));
            push(p, state, w, image, list);
            3
        }
        Stacking::Plp => {
            plp(state, w, image, list);
            4
        }
        Stacking::Pha => {
            let a = state[state::A];
            push(a, state, w, image, list);
            3
        }
        Stacking::Pla => {
            pla(state, w, image, list);
            4
        }
        Stacking::Rts => {
            rts(state, w, image, list);
            6
        }
        Stacking::Rti => {
            rti(state, w, image, list);
            6
        }
    }
}
