// Addresses and their two bytes, an address in its page, where a branch goes, places in the stack's page.

#![tactic(auto)]

ghost use Rattle.std.specs.Prelude.{◌≡◌};
ghost use Rattle.rules.specs.Basics.{address};
ghost use Rattle.rules.specs.Addressing.{old_page};
ghost use Rattle.rules.specs.Operations.{target, stack, down};

// An address of its low and its high byte.
pub fn join(low: u8, high: u8) -> u16
    ensures { result ≡ address low high }
{
    u16::from_le_bytes([low, high])
}

// "the old page with the summed low byte"
pub fn old_page(a: u16, i: u8) -> u16
    ensures { result ≡ old_page a i }
{
    let [low, high] = a.to_le_bytes();
    join(low.wrapping_add(i), high)
}

// Where a branch goes: the next instruction's address, and a signed offset. `up` is that offset plus 128, `back` how far it leads back.
pub fn target(next: u16, o: u8) -> u16
    ensures { result ≡ target next o }
{
    let up = o.wrapping_add(128) as u16;
    let back = 128u16.wrapping_sub(up);
    next.wrapping_sub(back)
}

// Where S points.
pub fn stack(s: u8) -> u16
    ensures { result ≡ stack s }
{
    256 + s as u16
}

// S after k pushes.
pub fn down(k: u8, s: u8) -> u8
    ensures { result ≡ down k s }
{
    s.wrapping_sub(k)
}
