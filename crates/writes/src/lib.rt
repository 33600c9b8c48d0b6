// Writes on the bus of the three parts: one at a time, each listed at its cycle's place, and PC pushed by two. The state is the
// record's sixteen bytes.

#![tactic(auto)]

ghost use Rattle.std.specs.Prelude.{◌+◌, ◌≤◌, ◌<◌, ◌≡◌, length};
ghost use Rattle.rules.specs.declared.State.{State};
ghost use Rattle.rules.specs.Cycles.{Bank, execution, done, write};
ghost use Rattle.rules.specs.declared.Purpose.TheVariants.{Stack};
ghost use Rattle.rules.specs.Operations.{push_pc};
ghost use Rattle.rules.specs.Bus.{narrow};
ghost use Rattle.rules.specs.Record.{record_of};
ghost use Rattle.wiring.specs.Wiring.{Stands, Ready};
ghost use Rattle.laws.specs.Goes.{Goes, Writes};
ghost use Rattle.laws.specs.States.{moved};
ghost use Rattle.writes.specs.Left.{registered, put_at};

use rules::Purpose;
use wiring::Wiring;

// What a register of the part keeps of a value: "four bits" on the 6509.
fn kept(part: u8, v: u8) -> u8
    ensures { result ≡ narrow part v }
{
    if part == 9 { v % 16 } else { v }
}

fn set_register(state: &mut [u8; 16], a: u16, v: u8)
    ensures { (s : State) → state.old ≡ record_of s →
        state.new ≡ record_of (moved s.cpu (registered s.bus a v) s) }
{
    let part = state[0];
    if a == 0 {
        state[8] = kept(part, v);
        return;
    }
    state[9] = kept(part, v);
}

// "a write there is listed and changes nothing": in a protected page.
fn put(pages: u8, w: Wiring, image: &mut [u8], a: u16, v: u8)
    requires { w.base + 65536 ≤ length image.old }
    ensures { image.new ≡ put_at pages w image.old a v }
{
    if a / 256 + (pages as u16) < 256 {
        if a < w.plain {
            image[(a % 256) as usize] = v;
            return;
        }
        image[w.base + a as usize] = v;
    }
}

// One write cycle, the step's k-th.
pub fn write(
    purpose: Purpose,
    state: &mut [u8; 16],
    w: Wiring,
    image: &mut [u8],
    list: &mut [u8],
    k: usize,
    a: u16,
    v: u8,
)
    requires { (k < 7) × Ready w (length image.old) (length list.old) }
    ensures { (s : State) (κ : Bank) → Stands κ s state.old w →
        Writes purpose κ a v k s image.old list.old state.new image.new list.new }
{
    listing::note_write(purpose, list, k, a, w.bank, v);
    if w.plain <= a {
        put(state[11], w, image, a, v);
        return;
    }
    if a < 2 {
        set_register(state, a, v);
        return;
    }
    put(state[11], w, image, a, v);
}

// One write cycle at the stack, where no part has a register.
pub fn push(state: &[u8; 16], w: Wiring, image: &mut [u8], list: &mut [u8], k: usize, s: u8, v: u8)
    requires { (k < 7) × Ready w (length image.old) (length list.old) }
    ensures { (t : State) (κ : Bank) → Stands κ t state.now w →
        Goes {A = Unit {0}} (write Stack κ (256 + s) v (done tt)) k t.bus image.old list.old tt (k + 1) t.bus
        image.new list.new }
{
    let a = 256 + s as u16;
    listing::note_write(Purpose::Stack, list, k, a, w.bank, v);
    put(state[11], w, image, a, v);
}

// "push PC high, low"
pub fn push_pc(
    state: &[u8; 16],
    w: Wiring,
    image: &mut [u8],
    list: &mut [u8],
    k: usize,
    pc: u16,
    s: u8,
)
    requires { (k < 6) × Ready w (length image.old) (length list.old) }
    ensures { (t : State) → Stands execution t state.now w →
        Goes (push_pc pc s) k t.bus image.old list.old tt (k + 2) t.bus image.new
        list.new }
{
    let [low, high] = pc.to_le_bytes();
    push(state, w, image, list, k, s, high);
    push(state, w, image, list, k + 1, addresses::down(1, s), low);
}
