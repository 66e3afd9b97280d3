// The trips of a passed line, and what is told of them.
use crate::cells::Cells;
use crate::runs::{TRIPS, Tour};
use generators::bank::Bank;
use line::calls::make;
use line::passed::Passed;
use measure::sizes::WalkSizes;

// The ways home of so many trips are told, event by event.
const SHOWN: u8 = 3;

// The trials' own count, against which the line's is held: the most offers that lead home, with n low levels, H states of the high walk and W of the
// largest low walk, ((n + 1)(H - 1) + n) W + n (W - 1).
fn bound(levels: u8, sizes: WalkSizes) -> u64 {
    let n = u64::from(levels);
    let high = u64::from(sizes.high.saturating_sub(1));
    let low = u64::from(sizes.largest_low());
    (n + 1)
        .saturating_mul(high)
        .saturating_add(n)
        .saturating_mul(low)
        .saturating_add(n.saturating_mul(low.saturating_sub(1)))
}

pub fn run<B: Bank + Drop>(
    rt: &HostRuntime,
    name: &str,
    passed: Passed<B>,
    cells: Cells,
) -> anyhow::Result<()> {
    let bound = bound(passed.chart().levels(), passed.sizes());
    let mut tour = Tour::new(rt.alloc(), make(passed), cells, bound);
    if tour.running.most_offers() != bound {
        println!(rt; "{name}: the bound differs")?;
    }
    for trip in 0..TRIPS {
        if let Err(difference) = tour.trip(trip) {
            println!(rt; "{name}: trip {trip}: {difference}")?;
            return Ok(());
        }
        if trip < SHOWN {
            let way = &tour.way;
            println!(rt; "{name}: home by{way}")?;
        }
    }
    let tally = tour.tally;
    println!(rt; "{name}: {tally}, agree")?;
    Ok(())
}
