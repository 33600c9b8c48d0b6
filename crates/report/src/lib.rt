// What the page report prints of the counts.

#![tactic(auto)]

ghost use Rattle.std.specs.Prelude.{◌+◌, ◌≤◌, [], ◌&&◌, eqb, length, Ok};
ghost use Rattle.rules.specs.Basics.{when◌then◌else◌};
ghost use Rattle.rules.specs.Text.{each};
ghost use Rattle.rules.specs.Pages.{page_line, traffic_line, report_text, report_of};
ghost use Rattle.characters.specs.Shown.{Puts, Shows};

use rules::{Counting, Refusal};

// A page, its reads and its writes; answers where the line ends.
#[tactic(auto, using(characters::proofs::Laws::spaced_most))]
fn put_page(text: &mut [u8], at: usize, page: u8, reads: u64, writes: u64) -> usize
    requires { at + 45 ≤ length text.old }
    ensures { Puts (page_line page reads writes) at result text.old text.new }
{
    let at = characters::put(text, at, &characters::hex(page));
    let at = characters::put_spaced(text, at, reads);
    let at = characters::put_spaced(text, at, writes);
    characters::put(text, at, b"\n")
}

// "one line per page with any traffic"
fn put_traffic(text: &mut [u8], at: usize, page: u8, reads: u64, writes: u64) -> usize
    requires { at + 45 ≤ length text.old }
    ensures { Puts (when eqb reads 0 && eqb writes 0 then [] else page_line page reads writes) at result text.old
        text.new }
{
    if reads == 0 && writes == 0 {
        return at;
    }
    put_page(text, at, page, reads, writes)
}

fn put_pages(text: &mut [u8; 11543], reads: &[u64; 256], writes: &[u64; 256]) -> usize
    ensures { Puts (each 256 (traffic_line reads.now writes.now)) 0 result text.old text.new }
{
    let mut at = 0;
    for (page, (&r, &w)) in reads.iter().zip(writes).enumerate() {
        at = put_traffic(text, at, page as u8, r, w);
    }
    at
}

// "then the total"
fn put_counts(text: &mut [u8; 11543], reads: &[u64; 256], writes: &[u64; 256]) -> usize
    ensures { Shows (report_text (Ok tt) reads.now writes.now) result text.old text.new }
{
    match totals::total_of(reads, writes) {
        Some(total) => {
            let at = put_pages(text, reads, writes);
            characters::put_number(text, at, b'T', total)
        }
        None => characters::put_refusal(text, Refusal::Total),
    }
}

// Puts the report at the front of a buffer and answers its length. At most 11,543 bytes: 256 lines of 45, and the total.
#[tactic(auto, unfolding(rules::specs::Pages::report_of))]
pub fn print(counts: Counting, text: &mut [u8; 11543]) -> usize
    ensures { Shows (report_of counts) result text.old text.new }
{
    match counts.answer {
        Ok(()) => put_counts(text, &counts.reads, &counts.writes),
        Err(e) => characters::put_refusal(text, e),
    }
}
