// The step printer's text: what is printed for an input, "record, lines, pins, image".

#![tactic(auto)]

ghost use Rattle.std.specs.Prelude.{ℕ, ◌+◌, ◌*◌, ◌/◌, ◌%◌, ◌≤◌, ◌≡◌, length, Result, Ok};
ghost use Rattle.rules.specs.declared.Refusal.{Refusal};
ghost use Rattle.rules.specs.Answers.{step_word};
ghost use Rattle.rules.specs.Text.{letter, each, line_of, bytes_text, record_line, step_text};
ghost use Rattle.characters.specs.Shown.{Puts, Shows};
ghost use Rattle.text.specs.Print.{printout, printing};

use rules::Refusal;

fn letter(kind: u8) -> u8
    ensures { result ≡ letter kind }
{
    if kind == 0 { b'R' } else { b'W' }
}

// "R or W, bank (one hexadecimal digit), address, value"; document 02: "the digit last on each access line"
#[tactic(auto, unfolding(rules::specs::Text::access_line))]
fn line_of(access: &[u8; 8]) -> [u8; 14]
    ensures { result ≡ line_of access.now 0 }
{
    let [low, high, bank, value, kind, purpose, _, _] = *access;
    let h = characters::hex(high);
    let l = characters::hex(low);
    let v = characters::hex(value);
    [
        letter(kind),
        b' ',
        characters::digit(bank % 16),
        b' ',
        h[0],
        h[1],
        l[0],
        l[1],
        b' ',
        v[0],
        v[1],
        b' ',
        characters::digit(purpose % 16),
        b'\n',
    ]
}

// The first n accesses of a list, at the front; answers where they end.
fn put_accesses(text: &mut [u8], list: &[u8; 56], n: usize) -> usize
    requires { (n ≤ 7) × (14 * n ≤ length text.old) }
    ensures { Puts (each n (line_of list.now)) 0 result text.old text.new }
{
    let mut at = 0;
    for access in &list.as_chunks().0[..n] {
        at = characters::put(text, at, &line_of(access));
    }
    at
}

fn put_bytes(text: &mut [u8], at: usize, state: &[u8; 16]) -> usize
    requires { at + 32 ≤ length text.old }
    ensures { Puts (bytes_text state.now) at result text.old text.new }
{
    let mut at = at;
    for byte in state {
        at = characters::put(text, at, &characters::hex(*byte));
    }
    at
}

// "then S and the new record"
#[tactic(auto, using(crate::proofs::Laws::bytes_length))]
fn put_record(text: &mut [u8], at: usize, state: &[u8; 16]) -> usize
    requires { at + 35 ≤ length text.old }
    ensures { Puts (record_line state.now) at result text.old text.new }
{
    let at = characters::put(text, at, b"S ");
    let at = put_bytes(text, at, state);
    characters::put(text, at, b"\n")
}

fn put_step(text: &mut [u8; 137], n: u8, state: &[u8; 16], list: &[u8; 56]) -> usize
    requires { n ≤ 7 }
    ensures { Shows (step_text (Ok n) state.now list.now) result text.old text.new }
{
    let at = put_accesses(text, list, n as usize);
    let at = characters::put_number(text, at, b'N', n as u64);
    put_record(text, at, state)
}

// A step's word, as a board is told it: its low byte is 0, or the number of a refusal.
fn put_answer(text: &mut [u8; 137], word: u64, state: &[u8; 16], list: &[u8; 56]) -> usize
    requires { word % 256 ≡ 0 → word / 256 ≤ 7 }
    ensures { (a : Result ℕ Refusal) → word ≡ step_word a →
        Shows (step_text a state.now list.now) result text.old text.new }
{
    let number = word % 256;
    if number == 0 {
        return put_step(text, (word / 256) as u8, state, list);
    }
    characters::put_number(text, 0, b'E', number)
}

// Puts the text for an input at the front of a buffer and answers its length. At most 137 bytes: seven accesses, the count, the record.
// The input's image is left as the step leaves it.
pub fn print(input: &mut [u8], text: &mut [u8; 137]) -> usize
    ensures { printout result input.new text.new ≡ printing input.old text.old }
{
    let Some(front) = input.first_chunk() else {
        return characters::put_refusal(text, Refusal::RecordLength);
    };
    let mut state = *front;
    if !formed::well_formed(&state) {
        return characters::put_refusal(text, Refusal::Malformed);
    }
    if input.len() != 65554 {
        return characters::put_refusal(text, Refusal::ImageLength);
    }
    let lines = input[16];
    let pins = input[17];
    let mut list = [0; 56];
    let word = step::step(&mut state, &mut input[18..], lines, pins, &mut list);
    put_answer(text, word, &state, &list)
}
