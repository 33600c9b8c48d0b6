// Whether sixteen bytes are a record: "Anything else is malformed."

#![tactic(auto)]

ghost use Rattle.std.specs.Prelude.{◌≡◌};
ghost use Rattle.rules.specs.Record.{well_formed, flags_fit};
ghost use Rattle.formed.specs.Rest.{rest_fits};

// "P is N V 1 0 D I Z C": bit 5 is 1, bit 4 is 0.
fn flags_fit(p: u8) -> bool
    ensures { result ≡ flags_fit p }
{
    p / 16 % 4 == 2
}

// "Bytes 8, 9 are 0 on the 6502, at most 15 on the 6509. Byte 10 is 0 on the 6508, byte 11 is 0 on the 6509." A sum is 0 where each part
// of it is.
fn rest_fits(part: u8, first: u8, second: u8, level: u8, pages: u8) -> bool
    ensures { result ≡ rest_fits part first second level pages }
{
    match part {
        2 => first as u16 + second as u16 + (level / 2) as u16 == 0,
        8 => level == 0,
        9 => (first / 16) as u16 + (second / 16) as u16 + (level / 2) as u16 + pages as u16 == 0,
        _ => false,
    }
}

pub fn well_formed(state: &[u8; 16]) -> bool
    ensures { result ≡ well_formed state.now }
{
    flags_fit(state[5]) && rest_fits(state[0], state[8], state[9], state[10], state[11])
}
