// The words of a line: names, numbers, sums and operands, read from a place in its text.

#![tactic(auto)]

ghost use Rattle.std.specs.Prelude.{◌≡◌, ◌≤◌, length, drop};
ghost use Rattle.assembly_rules.specs.Characters.{place, run, is_space, skip, next};
ghost use Rattle.assembly_rules.specs.Sums.{is_sign, total_of, closed, number, term, sum_by};
ghost use Rattle.assembly_rules.specs.Operands.{lastly, indexed, plain, inside_x, behind, pointed, operand};
ghost use Rattle.operands.specs.Places.{Ran, Ahead, Finds, read_at};

use assembly_rules::Operand;

// "at most 16 deep"
const DEEPEST: u8 = 16;

// So many characters more could have been read; the next one is at a place.
#[derive(Clone, Copy)]
pub struct Word {
    pub value: u32,
    pub left: u8,
    pub at: usize,
}

// A character, where the text has not ended, and the place behind it.
#[derive(Clone, Copy)]
struct Character {
    character: Option<u8>,
    at: usize,
}

// A value, whether it is written with four digits alone, and the place behind it.
#[derive(Clone, Copy)]
pub struct Found {
    pub value: u16,
    pub four: bool,
    pub at: usize,
}

fn place(c: u8) -> u8
    ensures { result ≡ place c }
{
    match c {
        b'0'..=b'9' => c - b'0',
        b'A'..=b'Z' => c - b'A' + 10,
        b'a'..=b'z' => c - b'a' + 10,
        _ => 36,
    }
}

// At most four characters, as a number.
#[tactic(auto, using(crate::proofs::Laws::runs))]
fn run(s: &[u8], at: usize, base: u8, n: u8) -> Word
    requires { (at ≤ length s.now) × (base ≤ 36) × (n ≤ 1) }
    ensures { Ran (run base 4 n (drop at s.now)) s.now result }
{
    let mut word = Word {
        value: n as u32,
        left: 4,
        at,
    };
    for &c in &s[at..] {
        let digit = place(c);
        if word.left == 0 || base <= digit {
            return word;
        }
        word.value = word.value * (base as u32) + (digit as u32);
        word.left -= 1;
        word.at += 1;
    }
    word
}

fn is_space(c: u8) -> bool
    ensures { result ≡ is_space c }
{
    matches!(c, b' ' | b'\t')
}

fn skip(s: &[u8], at: usize) -> usize
    requires { at ≤ length s.now }
    ensures { (skip (drop at s.now) ≡ drop result s.now) × (result ≤ length s.now) }
{
    match s[at..].iter().position(|&c| !is_space(c)) {
        Some(k) => at + k,
        None => s.len(),
    }
}

fn next(s: &[u8], at: usize) -> Character
    requires { at ≤ length s.now }
    ensures { Ahead (next (drop at s.now)) s.now result }
{
    let p = skip(s, at);
    match s.get(p) {
        Some(&c) => Character {
            character: Some(c),
            at: p + 1,
        },
        None => Character {
            character: None,
            at: p,
        },
    }
}

// A line's first word, as a number: its name, where it has one.
pub fn name(s: &[u8]) -> Word
    ensures { Ran (run 36 4 1 (skip s.now)) s.now result }
{
    let begin = skip(s, 0);
    run(s, begin, 36, 1)
}

// "A number is $ and one to four digits": the digits.
pub fn number(s: &[u8], at: usize) -> Option<Found>
    requires { at ≤ length s.now }
    ensures { Finds (number (drop at s.now)) s.now result }
{
    let r = run(s, at, 16, 0);
    if r.left == 4 {
        return None;
    }
    Some(Found {
        value: r.value as u16,
        four: r.left == 0,
        at: r.at,
    })
}

// A bracket is closed behind its sum.
fn closed(s: &[u8], f: Found) -> Option<Found>
    requires { f.at ≤ length s.now }
    ensures { Finds (closed (read_at s.now f)) s.now result }
{
    let n = next(s, f.at);
    match n.character {
        Some(b']') => Some(Found {
            value: f.value,
            four: false,
            at: n.at,
        }),
        _ => None,
    }
}

fn is_sign(c: u8) -> bool
    ensures { result ≡ is_sign c }
{
    matches!(c, b'+' | b'-')
}

// "values are modulo 65,536"
fn total(v: u16, sign: u8, w: u16) -> u16
    ensures { result ≡ total_of v sign w }
{
    if sign == b'-' {
        v.wrapping_sub(w)
    } else {
        v.wrapping_add(w)
    }
}

// "a sum is made of terms", no more of them than characters
#[cycle(sum_term)]
#[tactic(auto, using(crate::proofs::Summed::going_on))]
fn sum(s: &[u8], at: usize, depth: u8) -> Option<Found>
    requires { at ≤ length s.now }
    ensures { Finds (sum_by (term depth) (drop at s.now)) s.now result }
{
    let mut f = term(s, at, depth)?;
    for _k in at..s.len() {
        let n = next(s, f.at);
        match n.character {
            Some(sign) if is_sign(sign) => {
                let t = term(s, n.at, depth)?;
                f = Found {
                    value: total(f.value, sign, t.value),
                    four: false,
                    at: t.at,
                };
            }
            _ => return Some(f),
        }
    }
    Some(f)
}

// "and a bracketed term is again a sum"
#[cycle(sum_term)]
#[tactic(auto, using(crate::proofs::Summed::term_when))]
fn term(s: &[u8], at: usize, depth: u8) -> Option<Found>
    requires { at ≤ length s.now }
    ensures { Finds (term depth (drop at s.now)) s.now result }
{
    let n = next(s, at);
    match n.character {
        Some(b'$') => number(s, n.at),
        Some(b'[') => closed(s, sum(s, n.at, depth.checked_sub(1)?)?),
        _ => None,
    }
}

// The operand, where nothing follows it.
fn lastly(s: &[u8], at: usize, o: Operand) -> Option<Operand>
    requires { at ≤ length s.now }
    ensures { result ≡ lastly (drop at s.now) o }
{
    match next(s, at).character {
        None => Some(o),
        Some(_) => None,
    }
}

// Behind a sum and a comma. "Letters may be small or large"
fn indexed(s: &[u8], at: usize, v: u16, four: bool) -> Option<Operand>
    requires { at ≤ length s.now }
    ensures { result ≡ indexed v four (next (drop at s.now)) }
{
    let n = next(s, at);
    match n.character {
        Some(b'X' | b'x') => lastly(s, n.at, Operand::AddressX(v, four)),
        Some(b'Y' | b'y') => lastly(s, n.at, Operand::AddressY(v, four)),
        _ => None,
    }
}

fn plain(s: &[u8], f: Found) -> Option<Operand>
    requires { f.at ≤ length s.now }
    ensures { result ≡ plain (read_at s.now f) }
{
    let n = next(s, f.at);
    match n.character {
        None => Some(Operand::Address(f.value, f.four)),
        Some(b',') => indexed(s, n.at, f.value, f.four),
        _ => None,
    }
}

// Behind (sum,
fn inside_x(s: &[u8], at: usize, v: u16) -> Option<Operand>
    requires { at ≤ length s.now }
    ensures { result ≡ inside_x v (next (drop at s.now)) }
{
    let n = next(s, at);
    match n.character {
        Some(b'X' | b'x') => {
            let p = next(s, n.at);
            match p.character {
                Some(b')') => lastly(s, p.at, Operand::IndirectX(v)),
                _ => None,
            }
        }
        _ => None,
    }
}

// Behind (sum)
fn behind(s: &[u8], at: usize, v: u16) -> Option<Operand>
    requires { at ≤ length s.now }
    ensures { result ≡ behind v (next (drop at s.now)) }
{
    let n = next(s, at);
    match n.character {
        None => Some(Operand::Indirect(v)),
        Some(b',') => {
            let p = next(s, n.at);
            match p.character {
                Some(b'Y' | b'y') => lastly(s, p.at, Operand::IndirectY(v)),
                _ => None,
            }
        }
        _ => None,
    }
}

fn pointed(s: &[u8], f: Found) -> Option<Operand>
    requires { f.at ≤ length s.now }
    ensures { result ≡ pointed (read_at s.now f) }
{
    let n = next(s, f.at);
    match n.character {
        Some(b',') => inside_x(s, n.at, f.value),
        Some(b')') => behind(s, n.at, f.value),
        _ => None,
    }
}

// What stands behind a name.
#[tactic(auto, unfolding(assembly_rules::specs::Operands::operand))]
pub fn operand(s: &[u8], at: usize) -> Option<Operand>
    requires { at ≤ length s.now }
    ensures { result ≡ operand (drop at s.now) }
{
    let n = next(s, at);
    match n.character {
        None => Some(Operand::Nothing),
        Some(b'#') => {
            let f = sum(s, n.at, DEEPEST)?;
            lastly(s, f.at, Operand::Immediate(f.value))
        }
        Some(b'(') => pointed(s, sum(s, n.at, DEEPEST)?),
        Some(b'A' | b'a') => lastly(s, n.at, Operand::Accumulator),
        _ => plain(s, sum(s, at, DEEPEST)?),
    }
}
