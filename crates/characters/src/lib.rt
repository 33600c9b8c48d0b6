// Digits and numbers, as they are printed, and text put into a buffer.

#![tactic(auto)]

ghost use Rattle.std.specs.Prelude.{◌+◌, ◌≤◌, ◌<◌, ◌≡◌, length};
ghost use Rattle.rules.specs.Text.{digit, hex, decimal, spaced, number_line, refusal_line};
ghost use Rattle.characters.specs.Shown.{Puts, Shows};

use rules::Refusal;

// 0 to 9, A to F.
pub fn digit(n: u8) -> u8
    requires { n < 100 }
    ensures { result ≡ digit n }
{
    if n < 10 { b'0' + n } else { b'A' + (n - 10) }
}

// A byte in hexadecimal.
pub fn hex(v: u8) -> [u8; 2]
    ensures { result ≡ hex v }
{
    [digit(v / 16), digit(v % 16)]
}

// A number in decimal, from the last digit to the first, at the end of the bytes that are lent for it.
fn decimal(n: u64, bytes: &mut [u8; 20]) -> &[u8]
    ensures { result.now ≡ decimal n }
{
    let mut from = 19;
    let mut rest = n;
    while 10 <= rest {
        bytes[from] = digit((rest % 10) as u8);
        rest /= 10;
        from -= 1;
    }
    bytes[from] = digit(rest as u8);
    &bytes[from..]
}

// Puts a piece of text at a place; answers where it ends.
#[tactic(auto, using(crate::proofs::Laws::puts_copied))]
pub fn put(text: &mut [u8], at: usize, piece: &[u8]) -> usize
    requires { at + length piece.now ≤ length text.old }
    ensures { Puts piece.now at result text.old text.new }
{
    let end = at + piece.len();
    text[at..end].copy_from_slice(piece);
    end
}

// A space and a number in decimal; answers where it ends.
#[tactic(auto, using(crate::proofs::Laws::digits_most))]
pub fn put_spaced(text: &mut [u8], at: usize, n: u64) -> usize
    requires { at + 21 ≤ length text.old }
    ensures { Puts (spaced n) at result text.old text.new }
{
    let at = put(text, at, b" ");
    put(text, at, decimal(n, &mut [0; 20]))
}

// A letter and a number in decimal; answers where the line ends.
#[tactic(auto, using(crate::proofs::Laws::spaced_most))]
pub fn put_number(text: &mut [u8], at: usize, letter: u8, n: u64) -> usize
    requires { at + 23 ≤ length text.old }
    ensures { Puts (number_line letter n) at result text.old text.new }
{
    let at = put(text, at, &[letter]);
    let at = put_spaced(text, at, n);
    put(text, at, b"\n")
}

// "A refusal prints only E and its number"
pub fn put_refusal(text: &mut [u8], e: Refusal) -> usize
    requires { 23 ≤ length text.old }
    ensures { Shows (refusal_line e) result text.old text.new }
{
    put_number(text, 0, b'E', words::numbers_of(e).number as u64)
}
