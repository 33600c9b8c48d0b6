// The numbers of documents 01 and 02, and the word that carries them to the board.

#![tactic(auto)]

ghost use Rattle.std.specs.Prelude.{◌≡◌};
ghost use Rattle.rules.specs.Answers.{plain, with_index, numbers_of, packed, refusal_word};

use rules::{Numbers, Refusal};

fn plain(number: u8) -> Numbers
    ensures { result ≡ plain number }
{
    Numbers {
        number,
        small: 0,
        large: 0,
    }
}

fn with_index(number: u8, i: u16) -> Numbers
    ensures { result ≡ with_index number i }
{
    Numbers {
        number,
        small: 0,
        large: i,
    }
}

// "6 adds PC and opcode"; "11 and 13 to 16 add the record's index; all other details are 0"
pub fn numbers_of(e: Refusal) -> Numbers
    ensures { result ≡ numbers_of e }
{
    match e {
        Refusal::RecordLength => plain(1),
        Refusal::Malformed => plain(2),
        Refusal::ImageLength => plain(3),
        Refusal::Lines => plain(4),
        Refusal::Room => plain(5),
        Refusal::Undefined { pc, opcode } => Numbers {
            number: 6,
            small: opcode,
            large: pc,
        },
        Refusal::ScriptLength => plain(7),
        Refusal::FileLength => plain(8),
        Refusal::Admission => plain(10),
        Refusal::MapRecord(i) => with_index(11, i),
        Refusal::Vectors => plain(12),
        Refusal::Place(i) => with_index(13, i),
        Refusal::StoreAddress(i) => with_index(14, i),
        Refusal::Stack(i) => with_index(15, i),
        Refusal::Successor(i) => with_index(16, i),
        Refusal::ListLength => plain(20),
        Refusal::ListRecord => plain(21),
        Refusal::Total => plain(22),
    }
}

// Bits 0 to 7 are the number, 8 to 15 the small detail, from 16 on the large one.
pub fn packed(n: Numbers) -> u64
    ensures { result ≡ packed n }
{
    n.number as u64 + 256 * n.small as u64 + 65536 * n.large as u64
}

pub fn refusal_word(e: Refusal) -> u64
    ensures { result ≡ refusal_word e }
{
    packed(numbers_of(e))
}
