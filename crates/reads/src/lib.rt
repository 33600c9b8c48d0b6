// Reads on the bus of the three parts: one at a time, each listed at its cycle's place, and an address by two. The state is the
// record's sixteen bytes.

#![tactic(auto)]

ghost use Rattle.std.specs.Prelude.{◌+◌, ◌-◌, ◌≤◌, ◌<◌, ◌≡◌, length};
ghost use Rattle.std.specs.Int.Bits.{bit_and, bit_or};
ghost use Rattle.rules.specs.declared.State.{State};
ghost use Rattle.rules.specs.Cycles.{Bank, execution, done, read};
ghost use Rattle.rules.specs.Bus.{world, images, look};
ghost use Rattle.rules.specs.Record.{record_of};
ghost use Rattle.wiring.specs.Wiring.{Stands, Ready};
ghost use Rattle.laws.specs.Goes.{Goes};
ghost use Rattle.reads.specs.Held.{low_held};
ghost use Rattle.rules.specs.Addressing.{word_at};

use rules::Purpose;
use wiring::Wiring;

// The 6508's port: "the output bit where direction is 1, the pin where it is 0".
fn port(direction: u8, output: u8, pins: u8) -> u8
    ensures { result ≡ bit_or (bit_and output direction) (bit_and pins (255 - direction)) }
{
    (output & direction) | (pins & (255 - direction))
}

// What an address below `plain` holds: a register, the port, or the 6508's first page.
fn low_held(state: &[u8; 16], pins: u8, image: &[u8], a: u16) -> u8
    requires { 65536 ≤ length image.now }
    ensures { (s : State) → state.now ≡ record_of s → pins ≡ s.bus.pins → result ≡ low_held s.bus image.now a }
{
    if 1 < a {
        return image[(a % 256) as usize];
    }
    if a == 0 {
        return state[8];
    }
    if state[0] == 8 {
        return port(state[8], state[9], pins);
    }
    state[9]
}

// What a read would find, unlisted.
pub fn look(state: &[u8; 16], w: Wiring, image: &[u8], a: u16) -> u8
    requires { w.size ≤ length image.now }
    ensures { (s : State) (κ : Bank) → Stands κ s state.now w →
        result ≡ look images (world s.bus image.now) κ a }
{
    if a < w.plain {
        return low_held(state, w.pins, image, a);
    }
    image[w.base + a as usize]
}

// One read cycle, the step's k-th.
pub fn read(
    purpose: Purpose,
    state: &[u8; 16],
    w: Wiring,
    image: &[u8],
    list: &mut [u8],
    k: usize,
    a: u16,
) -> u8
    requires { (k < 7) × Ready w (length image.now) (length list.old) }
    ensures { (s : State) (κ : Bank) → Stands κ s state.now w →
        Goes (read purpose κ a done) k s.bus image.now list.old result (k + 1) s.bus image.now
        list.new }
{
    let v = look(state, w, image, a);
    listing::note_read(purpose, list, k, a, w.bank, v);
    v
}

// An address from two places.
pub fn word_at(
    purpose: Purpose,
    state: &[u8; 16],
    w: Wiring,
    image: &[u8],
    list: &mut [u8],
    k: usize,
    one: u16,
    two: u16,
) -> u16
    requires { (k < 6) × Ready w (length image.now) (length list.old) }
    ensures { (t : State) → Stands execution t state.now w →
        Goes (word_at purpose one two) k t.bus image.now list.old result (k + 2) t.bus image.now
        list.new }
{
    let low = read(purpose, state, w, image, list, k, one);
    let high = read(purpose, state, w, image, list, k + 1, two);
    addresses::join(low, high)
}
