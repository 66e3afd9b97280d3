// Trials: lines piled in code, and the line files that are named.
#![tactic(auto)]

mod cells;
mod chance;
mod cycle;
mod difference;
mod flat;
mod graph;
mod joint;
mod listed;
mod piles;
mod runs;
mod trial;
mod trips;

use cells::Cells;
use line::cells::Cells as Lent;
use linefile::bank::FileBank;
use linefile::chart::read_chart;
use piles::{try_small_lines, try_stores};
use report::verdict::Report;
use std::{env, fs};
use trial::try_line;
use verdicts::verdict::Verdict;
use walks::line::Line;

// The most states of a walk.
const STATES: usize = 4096;

// What linecheck writes of the file, and the trial of the line that it holds.
fn try_file(rt: &HostRuntime, name: &str, file: &[u8], cells: &mut Cells) -> anyhow::Result<()> {
    let Cells {
        first,
        second,
        third,
        ..
    } = cells;
    let report = Report(Verdict::on(
        file,
        &mut Lent {
            first,
            second,
            third,
        },
    ));
    println!(rt; "{name}: {report}")?;
    match (read_chart(file), FileBank::read(file)) {
        (Ok(chart), Ok(bank)) => try_line(rt, name, Line { chart, bank }),
        _ => Ok(()),
    }
}

fn main(rt: HostRuntime) -> anyhow::Result<()> {
    let mut cells = Cells::new(rt.alloc(), STATES)?;
    try_small_lines(&rt)?;
    try_stores(&rt)?;
    for name in env::args(&rt)?.skip(1) {
        let file = fs::read(&rt, name.as_str())?;
        try_file(&rt, name.as_str(), file.as_slice(), &mut cells)?;
    }
    Ok(())
}
