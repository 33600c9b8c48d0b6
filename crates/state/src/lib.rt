// The registers where they stand in the record's sixteen bytes: 1 A, 2 X, 3 Y, 4 S, 5 P, 6 and 7 PC.

#![tactic(auto)]

ghost use Rattle.std.specs.Prelude.{◌/◌, ◌%◌, ◌<◌, ◌≡◌, length, set};
ghost use Rattle.rules.specs.Basics.{at, address};
ghost use Rattle.rules.specs.Flags.{flags_of, byte_of, nz};

use rules::{Flagged, Flags};

// Where A, X, Y, S and P stand.
pub const A: usize = 1;

pub const X: usize = 2;

pub const Y: usize = 3;

pub const S: usize = 4;

pub const P: usize = 5;

pub fn pc_of(state: &[u8; 16]) -> u16
    ensures { result ≡ address (at state.now 6) (at state.now 7) }
{
    addresses::join(state[6], state[7])
}

pub fn set_pc(state: &mut [u8; 16], pc: u16)
    ensures { state.new ≡ set (set state.old 6 (pc % 256)) 7 (pc / 256) }
{
    let [low, high] = pc.to_le_bytes();
    state[6] = low;
    state[7] = high;
}

pub fn set_s(state: &mut [u8; 16], s: u8)
    ensures { state.new ≡ set state.old 4 s }
{
    state[S] = s;
}

pub fn flags_of(state: &[u8; 16]) -> Flags
    ensures { result ≡ flags_of (at state.now 5) }
{
    flags::flags_of(state[P])
}

pub fn set_flags(state: &mut [u8; 16], f: Flags)
    ensures { state.new ≡ set state.old 5 (byte_of f) }
{
    state[P] = flags::byte_of(f);
}

// A byte into a register of this place, and its N and Z.
pub fn to(state: &mut [u8; 16], register: usize, v: u8)
    requires { register < 16 }
    ensures { state.new
        ≡ set (set state.old 5 (byte_of (nz v (flags_of (at state.old 5))))) register v }
{
    let f = flags_of(state);
    set_flags(state, flags::nzc(v, f.c, f));
    state[register] = v;
}

// A byte into A, and the flags with it.
pub fn to_result(state: &mut [u8; 16], made: Flagged)
    ensures { state.new ≡ set (set state.old 5 (byte_of made.flags)) 1 made.value }
{
    let f = made.flags;
    set_flags(state, f);
    state[A] = made.value;
}
