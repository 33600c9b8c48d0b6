// The functions that are called at a desk: numbers and byte slices in, one word out. A board that does not call them need not link them.

#![tactic(auto)]

ghost use Rattle.std.specs.Prelude.{◌≡◌};
ghost use Rattle.rules.specs.Answers.{verdict_word};
ghost use Rattle.rules.specs.Bus.{images};
ghost use Rattle.rules.specs.Pages.{page_words, fed};
ghost use Rattle.admission_rules.specs.Admission.{admit};
ghost use Rattle.admission_rules.specs.Safety.{Safe};
ghost use Rattle.assembly_rules.specs.Assembly.{told, assembly_word, assemble_words};
ghost use Rattle.assembly_rules.specs.Listing.{listing_word, list_words};

use assembly_rules::{BadLine, Fault};

// "from bit 16 on", which leaves 48 bits for a count.
fn told(number: u8, count: usize) -> u64
    ensures { result ≡ told number count }
{
    u64::from(number) + ((count as u64) << 16)
}

fn assembly_word(assembled: Result<usize, BadLine>) -> u64
    ensures { result ≡ assembly_word assembled }
{
    match assembled {
        Ok(count) => told(0, count),
        Err(bad) => told(faults::number_of(bad.fault), bad.line),
    }
}

fn listing_word(listed: Result<usize, Fault>) -> u64
    ensures { result ≡ listing_word listed }
{
    match listed {
        Ok(count) => told(0, count),
        Err(fault) => told(faults::number_of(fault), 0),
    }
}

// Demand 3: 0 promises that the image is safe.
pub fn wankitare_admit(image: &[u8], c: u8, map: &[u8]) -> u64
    ensures exact { result ≡ verdict_word (admit images image.now c map.now) }
    ensures safe { result ≡ 0 → Safe image.now c map.now }
{
    match admission::admit(image, c, map) {
        Ok(()) => 0,
        Err(e) => words::refusal_word(e),
    }
}

pub fn wankitare_pages(reads: &mut [u64; 256], writes: &mut [u64; 256], accesses: &[u8]) -> u64
    ensures { record { word = result; reads = reads.new; writes = writes.new }
        ≡ page_words (fed reads.old writes.old accesses.now) }
{
    match pages::feed(reads, writes, accesses) {
        Ok(_) => 0,
        Err(why) => words::refusal_word(why),
    }
}

#[tactic(auto, unfolding(assembly_rules::specs::Assembly::assemble_words))]
pub fn wankitare_assemble(text: &[u8], start: u16, bytes: &mut [u8]) -> u64
    ensures { record { word = result; left = bytes.new } ≡ assemble_words text.now start bytes.old }
{
    assembly_word(assembler::assemble(text, start, bytes))
}

#[tactic(auto, unfolding(assembly_rules::specs::Listing::list_words))]
pub fn wankitare_list(bytes: &[u8], start: u16, text: &mut [u8]) -> u64
    ensures { record { word = result; left = text.new } ≡ list_words bytes.now start text.old }
{
    listing_word(source::list(bytes, start, text))
}
