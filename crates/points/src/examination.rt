// The whole examination.
ghost use Rattle.std.specs.Prelude.{◌≤◌, min, length};
ghost use Rattle.hisc.specs.Sizes.{largest_walk};
ghost use Rattle.hisc.specs.Verdict.{Verdict, tests};
ghost use Rattle.walks.specs.Given.{line_given};
ghost use Rattle.points.specs.Examined.{cells_in, fault_in};
ghost use Rattle.points.specs.Tried.{TriedAll};
ghost use Rattle.points.specs.Whole.{line_whole};

use crate::whole::Whole;
use generators::bank::Bank;
use measure::sizes::WalkSizes;
use model::fault::{Fault, Layer};
use walks::line::Line;

impl<'a, B: Bank> Whole<'a, B> {
    // Tries the ten points in their order.
    fn ten_points(
        &self,
        first: &mut [u32],
        second: &mut [u32],
        third: &mut [u32],
    ) -> Result<(), Fault>
        requires { largest_walk (line_whole self.now) ≤ min (length first.old) (min (length second.old) (length third.old)) }
        ensures { TriedAll (line_whole self.now) (tests (line_whole self.now)) result }
    {
        self.alphabets_known()?;
        self.command_pairs(first, second)?;
        self.low_points(first, second, third)?;
        self.top_points(first, second, third)
    }
}

// Examines the line, in three slices as they are lent. The work cells may hold anything, and are left with anything.
pub fn examine<B: Bank>(
    line: &Line<B>,
    first: &mut [u32],
    second: &mut [u32],
    third: &mut [u32],
) -> Result<(), Fault>
    ensures { Verdict (line_given B.list line.now) (length (B.list line.now.bank)) (cells_in (length first.old) (length second.old) (length third.old)) (fault_in result) }
{
    let sizes = WalkSizes::of(line)?;
    let shortest = first.len().min(second.len()).min(third.len());
    if shortest < sizes.largest() as usize {
        return Err(Fault::WorkCells {
            layer: Layer::Check,
        });
    }
    Whole { line }.ten_points(first, second, third)
}
