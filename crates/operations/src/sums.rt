// ADC and SBC, in binary and in decimal.

ghost use Rattle.std.specs.Prelude.{◌≡◌, ◌+◌, ◌-◌, ◌<◌, ◌≤◌};
ghost use Rattle.rules.specs.Arithmetic.{signed, leaves, binary_adc, high, low_sum, high_sum, decimal_adc, adc, low_difference};
ghost use Rattle.rules.specs.Arithmetic.{high_difference, sbc};

use rules::{Flagged, Flags};

// A byte read as signed, plus 128: never below zero.
fn signed(b: u8) -> u16
    ensures { result ≡ signed b }
{
    (b as u16 + 128) % 256
}

// Whether a sum "leaves -128..127"; t is that sum plus 256.
fn leaves(t: u16) -> bool
    ensures { result ≡ leaves t }
{
    t < 128 || 384 <= t
}

// V: the sum of a and m, "read as signed bytes", and l.
fn overflows(a: u8, m: u8, l: u16) -> bool
    requires { l < 32 }
    ensures { result ≡ leaves (signed a + signed m + l) }
{
    leaves(signed(a) + signed(m) + l)
}

// "ADC and SBC set N, V, Z, C"
fn binary(a: u8, m: u8, f: Flags) -> Flagged
    ensures { result ≡ binary_adc a m f }
{
    let c = flags::bit(f.c) as u16;
    let t = a as u16 + m as u16 + c;
    let value = (t % 256) as u8;
    Flagged {
        value,
        flags: Flags {
            n: 128 <= value,
            v: overflows(a, m, c),
            z: value == 0,
            c: 256 <= t,
            ..f
        },
    }
}

// "high digits (times 16)"
fn high(a: u8) -> u8
    ensures { result ≡ high a }
{
    a / 16 * 16
}

// "L = low digits + C; if L is at least 10, L = (L + 6) mod 16 + 16."
fn low_sum(a: u8, m: u8, c: u16) -> u16
    requires { c ≤ 1 }
    ensures { (result ≡ low_sum a m c) × (result < 32) }
{
    let l = (a % 16) as u16 + (m % 16) as u16 + c;
    if 10 <= l { (l + 6) % 16 + 16 } else { l }
}

// "if T is at least 160, add 96"
fn high_sum(t: u16) -> u16
    requires { t < 512 }
    ensures { result ≡ high_sum t }
{
    if 160 <= t { t + 96 } else { t }
}

// Decimal ADC: N and V are taken before 96 is added, C after; "Z is the binary sum's."
fn decimal(a: u8, m: u8, f: Flags) -> Flagged
    ensures { result ≡ decimal_adc a m f }
{
    let c = flags::bit(f.c) as u16;
    let l = low_sum(a, m, c);
    let high_a = high(a);
    let high_m = high(m);
    let t = high_a as u16 + high_m as u16 + l;
    let sum = high_sum(t);
    Flagged {
        value: (sum % 256) as u8,
        flags: Flags {
            n: t / 128 % 2 == 1,
            v: overflows(high_a, high_m, l),
            z: (a as u16 + m as u16 + c) % 256 == 0,
            c: 256 <= sum,
            ..f
        },
    }
}

// In decimal mode the digits are added, else the bytes.
pub(crate) fn adc(a: u8, m: u8, f: Flags) -> Flagged
    ensures { result ≡ adc a m f }
{
    if f.d {
        return decimal(a, m, f);
    }
    binary(a, m, f)
}

// "L = difference of low digits - (1 - C); if negative, L = (L - 6) mod 16 - 16": L plus 16.
fn low_difference(a: u8, m: u8, c: u16) -> u16
    requires { c ≤ 1 }
    ensures { (result ≡ low_difference a m c) × (result < 32) }
{
    let l = 15 + (a % 16) as u16 + c - (m % 16) as u16;
    if l < 16 { (l + 10) % 16 } else { l }
}

// "if negative, subtract 96"; t is T plus 256.
fn high_difference(t: u16) -> u8
    ensures { result ≡ high_difference t }
{
    if t < 256 {
        return ((t + 160) % 256) as u8;
    }
    (t % 256) as u8
}

// Decimal SBC's byte: "T likewise".
fn difference(a: u8, m: u8, c: u16) -> u8
    requires { c ≤ 1 }
    ensures { result ≡ high_difference (240 + high a + low_difference a m c - high m) }
{
    high_difference(240 + high(a) as u16 + low_difference(a, m, c) - high(m) as u16)
}

// "SBC subtracts 1 - C more": a - m - (1 - C) is a + (255 - m) + C less 256. In decimal "All flags are the binary ones."
pub(crate) fn sbc(a: u8, m: u8, f: Flags) -> Flagged
    ensures { result ≡ sbc a m f }
{
    let plain = binary(a, 255 - m, f);
    if f.d {
        let flags = plain.flags;
        return Flagged {
            value: difference(a, m, flags::bit(f.c) as u16),
            flags,
        };
    }
    plain
}
