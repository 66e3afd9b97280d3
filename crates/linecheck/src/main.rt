// linecheck: reads a line file on standard input, checks the line that it means, and writes one line with its verdict.
#![tactic(auto)]

use line::cells::Cells;
use report::verdict::Report;
use std::io::Read;
use verdicts::verdict::Verdict;

// One byte more than a line file may have, so that a longer input is told from the longest file.
const MOST_BYTES: u64 = 60001;

// The most states that a walk has: so many cells suffice for each line.
const STATES: usize = 4096;

fn main(rt: HostRuntime) -> anyhow::Result<()> {
    let mut file = Vec::new(rt.alloc());
    rt.stdin().take(MOST_BYTES).read_to_end(&mut file)?;
    let mut first = vec![in rt.alloc(); 0u32; STATES]?;
    let mut second = vec![in rt.alloc(); 0u32; STATES]?;
    let mut third = vec![in rt.alloc(); 0u32; STATES]?;
    let mut cells = Cells {
        first: &mut first,
        second: &mut second,
        third: &mut third,
    };
    let report = Report(Verdict::on(file.as_slice(), &mut cells));
    println!(rt; "{report}")?;
    Ok(())
}
