// The records of a map: their form, and the search for one.

ghost use Rattle.std.specs.Prelude.{◌≡◌, ℕ, ◌<◌, List, length};
ghost use Rattle.admission_rules.specs.Admission.{mark_at, marks_in, is_mark, ascends};
ghost use Rattle.admission.specs.Maps.{bytes_of, mark_of, shaped_of, formed, Formed, IsMap, Found, NeedAt};

use admission_rules::Mark;
use std::marker::Model;

// "kind (1 main, 2 routine, 3 handler)"
pub(crate) const MAIN: u8 = 1;

pub(crate) const ROUTINE: u8 = 2;

pub(crate) const HANDLER: u8 = 3;

fn mark_of(bytes: &[u8; 8]) -> Mark
    ensures { result ≡ mark_of bytes.now }
{
    Mark {
        address: addresses::join(bytes[0], bytes[1]),
        kind: bytes[2],
        height: bytes[3],
        need: bytes[4],
    }
}

// "kind (1 main, 2 routine, 3 handler), .. three zeros"
fn is_shaped(bytes: &[u8; 8]) -> bool
    ensures { result ≡ shaped_of bytes.now }
{
    (MAIN..=HANDLER).contains(&bytes[2]) && bytes[5] == 0 && bytes[6] == 0 && bytes[7] == 0
}

// "strictly ascending address"
fn ascends(records: &[[u8; 8]], i: usize) -> bool
    requires { i < length records.now }
    ensures { result ≡ ascends (bytes_of records.now) i }
{
    i == 0 || mark_of(&records[i - 1]).address < mark_of(&records[i]).address
}

fn is_formed(records: &[[u8; 8]], i: usize) -> bool
    requires { i < length records.now }
    ensures { result ≡ formed (bytes_of records.now) i }
{
    is_shaped(&records[i]) && ascends(records, i)
}

// 11: the first record that is "malformed or not ascending".
pub(crate) fn first_malformed(records: &[[u8; 8]]) -> Option<usize>
    ensures { Formed (bytes_of records.now) result }
{
    (0..records.len()).find(|&i| !is_formed(records, i))
}

// A map of at most 65,536 bytes whose records ascend. Clauses see its bytes.
#[derive(Drop)]
pub(crate) struct Map<'a> {
    pub(crate) records: &'a [[u8; 8]],
}

impl<'a> Model for Map<'a> {
    ghost Value = { List ℕ };

    ghost view = { λ map. bytes_of map.records.now };

    ghost invariant = { λ map. IsMap map.records.now };
}

impl Map<'_> {
    pub(crate) fn len(&self) -> u16
        ensures { result ≡ marks_in self.now }
    {
        self.records.len() as u16
    }

    pub(crate) fn mark_at(&self, i: u16) -> Mark
        requires { i < marks_in self.now }
        ensures { result ≡ mark_at self.now i }
    {
        mark_of(&self.records[i as usize])
    }

    // The first record whose address is not below this one, by halving; where there is none, how many there are.
    fn halve(&self, address: u16) -> usize
        ensures { Found self.now address result }
    {
        self.records
            .partition_point(|bytes| mark_of(bytes).address < address)
    }

    // The same, where it is likely to be this record.
    fn find(&self, address: u16, likely: usize) -> usize
        ensures { Found self.now address result }
    {
        match self.records.get(likely) {
            Some(bytes) if mark_of(bytes).address == address => likely,
            _ => self.halve(address),
        }
    }

    // The need of the record with this address, kind and height, which is likely to be this record.
    pub(crate) fn need_at(&self, address: u16, kind: u8, height: u16, likely: usize) -> Option<u8>
        ensures { NeedAt self.now address kind height result }
    {
        let m = mark_of(self.records.get(self.find(address, likely))?);
        is_mark(m, address, kind, height).then_some(m.need)
    }
}

fn is_mark(m: Mark, address: u16, kind: u8, height: u16) -> bool
    ensures { result ≡ is_mark address kind height m }
{
    m.address == address && m.kind == kind && m.height as u16 == height
}
