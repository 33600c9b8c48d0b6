// The access list.

#![tactic(auto)]

ghost use Rattle.std.specs.Prelude.{◌*◌, ◌≤◌, ◌<◌, ◌≡◌, length};
ghost use Rattle.std.proofs.lemmas.List.Edits.{sets};
ghost use Rattle.rules.specs.Bus.{purpose_number, bytes_of};
ghost use Rattle.listing.specs.Outline.{outline};

use rules::Purpose;

// "1 opcode, 2 operand, 3 wasted, 4 pointer, 5 data, 6 stack, 7 vector"
fn purpose_number(purpose: Purpose) -> u8
    ensures { result ≡ purpose_number purpose }
{
    match purpose {
        Purpose::Opcode => 1,
        Purpose::Operand => 2,
        Purpose::Wasted => 3,
        Purpose::Pointer => 4,
        Purpose::Data => 5,
        Purpose::Stack => 6,
        Purpose::Vector => 7,
    }
}

// An access's address, bank and value, and four zeros.
fn outline(list: &mut [u8], k: usize, a: u16, bank: u8, v: u8)
    requires { (k < 7) × (56 ≤ length list.old) }
    ensures { list.new ≡ sets list.old (8 * k) (outline a bank v) }
{
    let at = 8 * k;
    let [low, high] = a.to_le_bytes();
    list[at] = low;
    list[at + 1] = high;
    list[at + 2] = bank;
    list[at + 3] = v;
    list[at + 4] = 0;
    list[at + 5] = 0;
    list[at + 6] = 0;
    list[at + 7] = 0;
}

// Lists a read: "8 bytes: address low, high, selected bank before the modulo (0 unless 6509), value, 0 read or 1 write", the purpose and
// two zeros. Of the zeros and the purpose the compiler makes one store.
pub fn note_read(purpose: Purpose, list: &mut [u8], k: usize, a: u16, bank: u8, v: u8)
    requires { (k < 7) × (56 ≤ length list.old) }
    ensures { list.new ≡ sets list.old (8 * k)
        (bytes_of (record { address = a; bank = bank; value = v; kind = 0; purpose = purpose })) }
{
    outline(list, k, a, bank, v);
    list[8 * k + 5] = purpose_number(purpose);
}

// Lists a write.
pub fn note_write(purpose: Purpose, list: &mut [u8], k: usize, a: u16, bank: u8, v: u8)
    requires { (k < 7) × (56 ≤ length list.old) }
    ensures { list.new ≡ sets list.old (8 * k)
        (bytes_of (record { address = a; bank = bank; value = v; kind = 1; purpose = purpose })) }
{
    note_read(purpose, list, k, a, bank, v);
    list[8 * k + 4] = 1;
}
