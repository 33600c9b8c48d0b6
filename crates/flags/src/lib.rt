// The flags, and the byte P that holds them.

#![tactic(auto)]

ghost use Rattle.std.specs.Prelude.{◌≤◌, ◌≡◌};
ghost use Rattle.rules.specs.Basics.{bit, bit_of};
ghost use Rattle.rules.specs.Flags.{flags_of, byte_of, byte_of4, nz, with_c, with_i};

use rules::Flags;

// The bit of p that has this weight.
pub fn has(p: u8, weight: u8) -> bool
    requires { 1 ≤ weight }
    ensures { result ≡ bit_of weight p }
{
    p / weight % 2 == 1
}

// A byte's flags; its bits 4 and 5 stand for none.
pub fn flags_of(p: u8) -> Flags
    ensures { result ≡ flags_of p }
{
    Flags {
        n: has(p, 128),
        v: has(p, 64),
        d: has(p, 8),
        i: has(p, 4),
        z: has(p, 2),
        c: has(p, 1),
    }
}

// A flag as a number, to be added.
pub fn bit(b: bool) -> u8
    ensures { (result ≡ bit b) × (result ≤ 1) }
{
    u8::from(b)
}

// "P is N V 1 0 D I Z C from bit 7 down."
pub fn byte_of(f: Flags) -> u8
    ensures { result ≡ byte_of f }
{
    bit(f.n) * 128 + bit(f.v) * 64 + 32 + bit(f.d) * 8 + bit(f.i) * 4 + bit(f.z) * 2 + bit(f.c)
}

// "P with bit 4 set"
pub fn with_bit_4(f: Flags) -> u8
    ensures { result ≡ byte_of4 f }
{
    byte_of(f) + 16
}

// "loads, pulls of A, transfers except TXS, logic and steps by one set N, Z"; those that do not set C give it as it is.
pub fn nzc(v: u8, carry: bool, f: Flags) -> Flags
    ensures { result ≡ with_c carry (nz v f) }
{
    Flags {
        n: 128 <= v,
        z: v == 0,
        c: carry,
        ..f
    }
}

pub fn with_i(b: bool, f: Flags) -> Flags
    ensures { result ≡ with_i b f }
{
    Flags { i: b, ..f }
}
