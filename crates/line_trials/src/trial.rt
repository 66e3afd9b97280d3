// The trial of a line over any bank.
use crate::cells::Cells;
use crate::flat::{Flat, LIMIT, Unbuilt};
use crate::trips::run;
use generators::bank::Bank;
use line::cells::Cells as Lent;
use line::check::check;
use line::passed::Passed;
use measure::sizes::WalkSizes;
use model::fault::{Fault, Layer};
use report::verdict::Report;
use verdicts::verdict::Verdict;
use walks::line::Line;

// The line again, where a check refused its cells, or the fault that comes before these. A check that passed or tried the points with too few cells
// is told by the fault that it should have found.
fn handed_back<B: Bank + Drop>(
    checked: Result<Passed<B>, (Fault, Line<B>)>,
) -> Result<Line<B>, Fault> {
    let cells = Fault::WorkCells {
        layer: Layer::Check,
    };
    match checked {
        Err(
            (
                Fault::WorkCells {
                    layer: Layer::Check,
                },
                line,
            ),
        ) => Ok(line),
        Err((fault @ (Fault::Components | Fault::WalkSize { .. }), _)) => Err(fault),
        _ => Err(cells),
    }
}

// Checks the line with a slice that is too short, whichever of the three it is, and then with cells that are just enough.
fn judge<B: Bank + Drop>(line: Line<B>, cells: &mut Cells) -> Result<Passed<B>, Fault> {
    let Cells {
        first,
        second,
        third,
        short,
    } = cells;
    let mut lent = Lent {
        first: short,
        second,
        third,
    };
    let line = handed_back(check(line, &mut lent))?;
    let mut lent = Lent {
        first,
        second: short,
        third,
    };
    let line = handed_back(check(line, &mut lent))?;
    let mut lent = Lent {
        first,
        second,
        third: short,
    };
    let line = handed_back(check(line, &mut lent))?;
    let mut lent = Lent {
        first,
        second,
        third,
    };
    check(line, &mut lent).map_err(|(fault, _)| fault)
}

// The size of the largest walk; 1 if the line has too large a walk, or too few or too many components.
fn cells_needed<B: Bank>(line: &Line<B>) -> usize {
    WalkSizes::of(line).map_or(1, |sizes| sizes.largest() as usize)
}

// Writes the verdict that just enough cells give, and what the joint line does.
fn tell(
    rt: &HostRuntime,
    name: &str,
    report: Report<Verdict>,
    flat: Result<Flat, Unbuilt>,
) -> anyhow::Result<()> {
    match flat {
        Ok(flat) => println!(rt; "{name}: with just enough cells {report}; {flat}")?,
        Err(Unbuilt::TooLarge) => {
            println!(rt; "{name}: with just enough cells {report}; flat above {LIMIT} states")?
        }
        Err(Unbuilt::Memory(error)) => return Err(error.into()),
    }
    Ok(())
}

// The handle and the name are not put into a struct: each line that prints would take it apart again.
pub fn try_line<B: Bank + Drop>(rt: &HostRuntime, name: &str, line: Line<B>) -> anyhow::Result<()> {
    let mut cells = Cells::new(rt.alloc(), cells_needed(&line))?;
    let flat = Flat::of(rt.alloc(), &line);
    match judge(line, &mut cells) {
        Ok(passed) => {
            tell(rt, name, Report(Ok(Verdict::from(&passed))), flat)?;
            run(rt, name, passed, cells)
        }
        Err(fault) => tell(rt, name, Report(Err(fault)), flat),
    }
}
