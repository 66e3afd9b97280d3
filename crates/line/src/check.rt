// The check: it takes a line, and hands over a passed line, or the first fault and the line.
ghost use Rattle.std.specs.Prelude.{◌≡◌};
ghost use Rattle.walks.specs.Given.{line_given};
ghost use Rattle.line.specs.Judged.{Judged};
ghost use Rattle.line.specs.Lent.{lent};
ghost use Rattle.measure.specs.Measured.{sizes_of};

use crate::cells::Cells;
use crate::passed::Passed;
use generators::bank::Bank;
use measure::sizes::WalkSizes;
use model::fault::Fault;
use points::examination::examine;
use walks::line::Line;

// Tries the ten points, each level alone. A line that passes keeps the law over every queue of calls.
pub fn check<B: Bank>(line: Line<B>, cells: &mut Cells<'_>) -> Result<Passed<B>, (Fault, Line<B>)>
    ensures judged { Judged line (lent cells.old) result }
    ensures lengths { lent cells.new ≡ lent cells.old }
{
    // A `match`, since each arm moves the line.
    match examine(&line, cells.first, cells.second, cells.third) {
        Ok(()) => Ok(Passed { line }),
        Err(fault) => Err((fault, line)),
    }
}

impl<B: Bank> Passed<B> {
    // The sizes of its walks.
    pub fn sizes(&self) -> WalkSizes
        ensures { result ≡ sizes_of (line_given B.Bank.list self.now.line) }
    {
        WalkSizes::of(&self.line).unwrap()
    }
}
