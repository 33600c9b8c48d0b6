// Shifts and steps by one.

#![tactic(auto)]

ghost use Rattle.std.specs.Prelude.{◌≡◌};
ghost use Rattle.rules.specs.Arithmetic.{shifted, by_one, changed};

use rules::{Changing, Flagged, Flags};

// "Shifts set N, Z, C": C is the bit that fell out.
fn shifted(v: u8, out: bool, f: Flags) -> Flagged
    ensures { result ≡ shifted v out f }
{
    Flagged {
        value: v,
        flags: flags::nzc(v, out, f),
    }
}

// "steps by one set N, Z"
fn by_one(v: u8, f: Flags) -> Flagged
    ensures { result ≡ by_one v f }
{
    Flagged {
        value: v,
        flags: flags::nzc(v, f.c, f),
    }
}

// ASL, ROL, LSR, ROR, DEC, INC of a byte; a rotation takes C in.
pub fn changed(o: Changing, v: u8, f: Flags) -> Flagged
    ensures { result ≡ changed o v f }
{
    match o {
        Changing::Asl => shifted(v % 128 * 2, flags::has(v, 128), f),
        Changing::Rol => shifted(v % 128 * 2 + flags::bit(f.c), flags::has(v, 128), f),
        Changing::Lsr => shifted(v / 2, flags::has(v, 1), f),
        Changing::Ror => shifted(v / 2 + flags::bit(f.c) * 128, flags::has(v, 1), f),
        Changing::Dec => by_one(v.wrapping_sub(1), f),
        Changing::Inc => by_one(v.wrapping_add(1), f),
    }
}
