// The step printer. It reads at most one byte more than the longest input has: that shows an input that is too long.

#![tactic(auto)]

use std::io;
use std::io::Write;
use streams::fill;

fn main(rt: HostRuntime) -> io::Result<()> {
    let mut input = [0u8; 65555];
    let n = fill(&mut rt.stdin(), &mut input)?;
    let mut printed = [0u8; 137];
    let count = text::print(&mut input[..n], &mut printed);
    rt.stdout().write_all(&printed[..count])
}
