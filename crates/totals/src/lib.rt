// All counts together: document 02, "Cycles by page".

#![tactic(auto)]

ghost use Rattle.std.specs.Prelude.{◌≡◌, ◌+◌, length};
ghost use Rattle.rules.specs.Pages.{sum};
ghost use Rattle.totals.specs.Totals.{total_of};

// 2^32: what the two halves of a 64-bit number are parted by.
const HALF: u64 = 4294967296;

// All counts together, or `None` where they pass 64 bits. Their sum may take 73: high and low halves are summed apart, and neither sum can
// overflow.
pub fn total_of(reads: &[u64; 256], writes: &[u64; 256]) -> Option<u64>
    ensures { result ≡ total_of (sum reads.now + sum writes.now) }
{
    let mut high: u64 = 0;
    let mut low: u64 = 0;
    for (r, w) in reads.iter().zip(writes) {
        high += r / HALF + w / HALF;
        low += r % HALF + w % HALF;
    }
    let top = high + low / HALF;
    if top < HALF {
        Some(top * HALF + low % HALF)
    } else {
        None
    }
}
