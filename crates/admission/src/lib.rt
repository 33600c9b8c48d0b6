// The judgement of an image with its map: "it accepts exactly when all the rules above hold".

#![tactic(auto)]

mod instruction_rules;
mod marks;

ghost use Rattle.std.specs.Prelude.{◌≡◌, ◌<◌, Ok, Err};
ghost use Rattle.rules.specs.Basics.{when◌then◌else◌, at};
ghost use Rattle.rules.specs.Answers.{tested};
ghost use Rattle.rules.specs.Bus.{images};
ghost use Rattle.admission_rules.specs.Admission.{marks_in, input_fits, vector_at, vectors_hold, of_records};
ghost use Rattle.admission_rules.specs.Admission.{reached, rules_at, rule_tests, admit};
ghost use Rattle.admission_rules.specs.Safety.{Safe};
ghost use Rattle.admission.specs.Maps.{in_order};

use admission_rules::{Successor, Successors};
use marks::Map;
use rules::Refusal;

// Whether a successor is marked as is asked, likely by this record.
fn is_reached(map: &Map, s: Successor, likely: usize) -> bool
    ensures { result ≡ reached map.now s }
{
    map.need_at(s.address, s.kind, s.height, likely)
        .is_some_and(|need| need as u32 + s.more as u32 <= s.limit as u32)
}

fn peek(image: &[u8; 65536], p: u16) -> u8
    ensures { result ≡ at image.now p }
{
    image[p as usize]
}

// Address sums wrap.
fn vector_at(image: &[u8; 65536], p: u16) -> u16
    ensures { result ≡ vector_at images image.now p }
{
    addresses::join(peek(image, p), peek(image, p.wrapping_add(1)))
}

// 12: "FFFC points to main, FFFE to handler, both height 0; their needs + 3 make at most 256"
fn vectors_hold(image: &[u8; 65536], map: &Map) -> bool
    ensures { result ≡ vectors_hold images image.now map.now }
{
    let Some(main) = map.need_at(vector_at(image, 0xFFFC), marks::MAIN, 0, 0) else {
        return false;
    };
    let Some(handler) = map.need_at(vector_at(image, 0xFFFE), marks::HANDLER, 0, 0) else {
        return false;
    };
    main as u16 + handler as u16 + 3 <= 256
}

// Record i's own rules. 13: "place, undefined or barred opcode"; the others are the instruction's.
fn rules_at(image: &[u8; 65536], c: u8, map: &Map, i: u16) -> Result<Successors, Refusal>
    requires { i < marks_in map.now }
    ensures { result ≡ rules_at images image.now c map.now i }
{
    let m = map.mark_at(i);
    let a = m.address;
    if a / 256 < 256 - c as u16 {
        return Err(Refusal::Place(i));
    }
    let opcode = peek(image, a);
    let low = peek(image, a.wrapping_add(1));
    let high = peek(image, a.wrapping_add(2));
    let instruction = decode::decode(opcode, low, high);
    let size = instruction_rules::size_of(instruction);
    if a as usize + size as usize > 65536 {
        return Err(Refusal::Place(i));
    }
    instruction_rules::rules_for(instruction, high, m, a.wrapping_add(size), i)
}

// A record's successors, in order.
fn in_order(successors: Successors) -> [Option<Successor>; 2]
    ensures { result ≡ in_order successors }
{
    match successors {
        Successors::None => [None, None],
        Successors::One(s) => [Some(s), None],
        Successors::Two(s, t) => [Some(s), Some(t)],
    }
}

// 13 to 16: "the lowest record, and at it the lowest number". The loop over the records and the one over a record's successors are both
// left by the label at the first broken rule. A successor is mostly the next record.
fn judge(image: &[u8; 65536], c: u8, map: &Map) -> Result<(), Refusal>
    ensures { result
        ≡ tested (of_records (rule_tests images image.now c map.now) 0 (marks_in map.now))
        Err (Ok tt) }
{
    let mut verdict = Ok(());
    'records: for i in 0..map.len() {
        match rules_at(image, c, map, i) {
            Err(e) => {
                verdict = Err(e);
                break 'records;
            }
            Ok(successors) => {
                for s in in_order(successors) {
                    if let Some(s) = s
                        && !is_reached(map, s, i as usize + 1)
                    {
                        verdict = Err(Refusal::Successor(i));
                        break 'records;
                    }
                }
            }
        }
    }
    verdict
}

// 10: "image length, c, map length 0, over 65,536 or no multiple of 8"
fn input_fits(image: &[u8], c: u8, map: &[u8]) -> bool
    ensures { result ≡ input_fits images image.now c map.now }
{
    let n = map.len();
    image.len() == 65536 && (1..=254).contains(&c) && (1..=65536).contains(&n) && n % 8 == 0
}

// "Admission: 10; 11, first record; 12; then the lowest record, and at it the lowest number."
fn verdict(image: &[u8], c: u8, map: &[u8]) -> Result<(), Refusal>
    ensures { result ≡ admit images image.now c map.now }
{
    if !input_fits(image, c, map) {
        return Err(Refusal::Admission);
    }
    let image = image.as_array::<65536>().unwrap();
    let records = map.as_chunks::<8>().0;
    if let Some(i) = marks::first_malformed(records) {
        return Err(Refusal::MapRecord(i as u16));
    }
    let map = Map { records };
    if !vectors_hold(image, &map) {
        return Err(Refusal::Vectors);
    }
    judge(image, c, &map)
}

// Demand 3: it "accepts exactly when all the rules above hold", and what it accepts is safe in every sequence of steps and runs.
pub fn admit(image: &[u8], c: u8, map: &[u8]) -> Result<(), Refusal>
    ensures exact { result ≡ admit images image.now c map.now }
    ensures safe { result ≡ Ok tt → Safe image.now c map.now }
{
    verdict(image, c, map)
}
