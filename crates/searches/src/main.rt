// The searches of each walk of the lines that are named, with the time that they take. Without names it writes nothing.
#![tactic(auto)]

use anyhow::Context;
use generators::bank::Bank;
use linefile::bank::FileBank;
use linefile::chart::read_chart;
use search::answers::Way;
use std::alloc::{AllocError, Global};
use std::time::Instant;
use std::{env, fs};
use walks::aim::Aim;
use walks::line::Line;
use walks::part::Part;
use walks::refusal::Refusal;
use walks::row::Row;
use walks::walk::Walk;

// The most states that a walk has.
const STATES: usize = 4096;

// How often the searches of a line are made, for the time of one.
const TURNS: u32 = 10;

// What the searches of a walk find: how many states are reached, how many of these lead to all marked, and how many events lead there from the initial one.
#[derive(Clone, Copy)]
struct Found {
    reached: usize,
    leading: usize,
    steps: Option<u32>,
}

impl Found {
    fn with(self, other: Found) -> Found {
        let steps = self.steps.zip(other.steps);
        Found {
            reached: self.reached.saturating_add(other.reached),
            leading: self.leading.saturating_add(other.leading),
            steps: steps.map(|(a, b)| a.saturating_add(b)),
        }
    }
}

// The work cells of the searches: a flag for each state, and two more slices.
#[derive(Drop)]
struct Cells {
    flags: Vec<u32>,
    stack: Vec<u32>,
    places: Vec<u32>,
}

impl Cells {
    fn new(heap: Global) -> Result<Cells, AllocError> {
        Ok(Cells {
            flags: vec![in heap; 0u32; STATES]?,
            stack: vec![in heap; 0u32; STATES]?,
            places: vec![in heap; 0u32; STATES]?,
        })
    }

    // How many of the first `size` states have their flag set.
    fn flagged(&self, size: usize) -> usize {
        self.flags
            .iter()
            .take(size)
            .filter(|flag| **flag == 1)
            .count()
    }
}

// Reaches the states of the level's walk, those of them that lead to all marked, and the way there from the initial one.
fn search_walk<B: Bank>(line: &Line<B>, level: u8, cells: &mut Cells) -> Result<Found, Refusal> {
    let (part, aim) = match level {
        0 => (Part::High, Aim::HighMarked),
        _ => (Part::Low(level), Aim::LowMarked(level)),
    };
    let size = Walk::of(line, part)?.size() as usize;
    line.reach(part, &mut cells.stack, &mut cells.flags)?;
    let reached = cells.flagged(size);
    let Cells {
        flags,
        stack,
        places,
    } = cells;
    line.coreach(aim, flags, stack, places)?;
    let leading = cells.flagged(size);
    let from = Row::initial(&line.bank);
    let steps = match line.nearest(aim, &from, &mut cells.stack, &mut cells.places)? {
        Way::Unreachable => None,
        Way::Here => Some(0),
        Way::By { distance, .. } => Some(distance),
    };
    Ok(Found {
        reached,
        leading,
        steps,
    })
}

// The searches of each level's walk, the high one first: all that they find, added up.
fn search_line(file: &[u8], cells: &mut Cells) -> anyhow::Result<Found> {
    let chart = read_chart(file).ok().context("no line file")?;
    let bank = FileBank::read(file).ok().context("no line file")?;
    let mut all = Found {
        reached: 0,
        leading: 0,
        steps: Some(0),
    };
    let line = Line { chart, bank };
    for level in 0..=line.chart.levels() {
        let found = search_walk(&line, level, cells)
            .ok()
            .context("a walk is too large")?;
        all = all.with(found);
    }
    Ok(all)
}

fn main(rt: HostRuntime) -> anyhow::Result<()> {
    let mut cells = Cells::new(rt.alloc())?;
    for name in env::args(&rt)?.skip(1) {
        let file = fs::read(&rt, name.as_str())?;
        let start = Instant::now(&rt)?;
        for _ in 1..TURNS {
            search_line(&file, &mut cells)?;
        }
        let Found {
            reached,
            leading,
            steps,
        } = search_line(&file, &mut cells)?;
        let micros = start.elapsed(&rt)?.as_micros() / u128::from(TURNS);
        println!(rt; "{name} {reached} {leading} {steps:?} {micros}")?;
    }
    Ok(())
}
