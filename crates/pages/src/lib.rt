// The counts of accesses by page: document 02, "Cycles by page".

#![tactic(auto)]

ghost use Rattle.std.specs.Prelude.{◌≡◌, List, [], ◌++◌, ℕ, ◌+◌, ◌%◌, ◌<◌, ◌^◌, ltb, length, Ok, Err};
ghost use Rattle.rules.specs.Basics.{all, at};
ghost use Rattle.rules.specs.Answers.{tested};
ghost use Rattle.rules.specs.Pages.{is_record, records_in, raised, counted, form_tests, counting, fed, none, sum, counting_of};
ghost use Rattle.laws.proofs.Counts.{Bytes};
ghost use Rattle.pages.specs.Ends.{end_fits};
ghost use Rattle.pages.specs.Room.{Counts};
ghost use Rattle.pages.specs.Blocks.{refused_by, further};

use rules::{Counting, Refusal};

// A record's last four bytes as one number.
fn end_of(access: &[u8; 8]) -> u32
    ensures { end_fits result ≡ is_record access.now 0 }
{
    u32::from_le_bytes([access[4], access[5], access[6], access[7]])
}

// "byte 4 above 1"; "byte 5 as 0 to 7, where 0 is a list from before this change, and bytes 6 and 7 as zero": no bit but the lowest of
// byte 4 and the lowest three of byte 5.
fn end_fits(end: u32) -> bool
    ensures { result ≡ end_fits end }
{
    end < 2048 && end % 256 < 2
}

// The bits of all are put together and judged once, with no way out at the first that is wrong: so the compiler reads several at a time.
fn are_records(list: &[u8]) -> bool
    ensures { result ≡ all (records_in list.now) (is_record list.now) }
{
    let (records, _rest) = list.as_chunks();
    let mut ends = 0;
    for access in records {
        ends |= end_of(access);
    }
    end_fits(ends)
}

// What a list is refused for whatever the counts are.
fn judged(list: &[u8]) -> Result<(), Refusal>
    ensures { result ≡ tested (form_tests list.now) Err (Ok tt) }
{
    if list.len() % 8 != 0 {
        return Err(Refusal::ListLength);
    }
    if !are_records(list) {
        return Err(Refusal::ListRecord);
    }
    Ok(())
}

// "a total of all counts that would pass 64 bits": whether n more can be counted.
fn room_for(reads: &[u64; 256], writes: &[u64; 256], n: u64) -> bool
    ensures { result ≡ ltb (sum reads.now + sum writes.now + n) (2 ^ 64) }
{
    totals::total_of(reads, writes).is_some_and(|total| n <= u64::MAX - total)
}

fn raise(counts: &mut [u64; 256], page: u8)
    requires { at counts.old page + 1 < 2 ^ 64 }
    ensures { counts.new ≡ raised counts.old page }
{
    counts[page as usize] += 1;
}

// Each record adds one to a count. No count overflows, since not even their sum does.
fn count(reads: &mut [u64; 256], writes: &mut [u64; 256], list: &[u8])
    requires { Counts reads.old writes.old list.now }
    ensures { (reads.new ≡ counted 0 reads.old list.now (records_in list.now))
        × (writes.new ≡ counted 1 writes.old list.now (records_in list.now)) }
{
    let (records, _rest) = list.as_chunks::<8>();
    for access in records {
        let page = access[1];
        if access[4] == 0 {
            raise(reads, page);
        } else {
            raise(writes, page);
        }
    }
}

// A list is fed to the counts: 20, 21 and 22 are judged of the whole of it before the first count is raised.
pub fn feed(reads: &mut [u64; 256], writes: &mut [u64; 256], list: &[u8]) -> Result<(), Refusal>
    ensures { counting result reads.new writes.new
        ≡ fed reads.old writes.old list.now }
{
    judged(list)?;
    if !room_for(reads, writes, list.len() as u64 / 8) {
        return Err(Refusal::Total);
    }
    count(reads, writes, list);
    Ok(())
}

// "starting from all zero"
#[tactic(auto, unfolding(rules::specs::Pages::none))]
fn zeros(answer: Result<(), Refusal>) -> Counting
    ensures { result ≡ counting answer none none }
{
    Counting {
        answer,
        reads: [0; 256],
        writes: [0; 256],
    }
}

// Nothing was fed yet.
#[tactic(auto, using(crate::proofs::Blocks::nothing))]
pub fn none() -> Counting
    ensures { result ≡ counting_of [] }
{
    zeros(Ok(()))
}

// "the counts stay": all zero, as they were before the list.
fn refused(e: Refusal) -> Counting
    ensures { result ≡ refused_by e }
{
    zeros(Err(e))
}

// A list that is refused for e so far is refused for what comes before that, where the next block shows it.
fn refused_for(e: Refusal, block: &[u8]) -> Counting
    ensures { result ≡ tested (form_tests block.now) refused_by (refused_by e) }
{
    match judged(block) {
        Ok(()) => refused(e),
        Err(before) => refused(before),
    }
}

// A list that is longer than any buffer comes in blocks. The counting of what came so far, whole records, becomes that with one block more.
pub fn next(counts: Counting, block: &[u8]) -> Counting
    ensures exact { result ≡ further counts block.now }
    ensures joined { (l : List ℕ) → Bytes l → length l % 8 ≡ 0 → counts ≡ counting_of l →
        result ≡ counting_of (l ++ block.now) }
{
    match counts.answer {
        Ok(()) => {
            let mut reads = counts.reads;
            let mut writes = counts.writes;
            match feed(&mut reads, &mut writes, block) {
                Ok(()) => Counting {
                    answer: Ok(()),
                    reads,
                    writes,
                },
                Err(e) => refused(e),
            }
        }
        Err(e) => refused_for(e, block),
    }
}
