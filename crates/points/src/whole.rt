// A line that was measured.
ghost use Rattle.std.specs.Prelude.{length};
ghost use Rattle.hisc.specs.Verdict.{SizesFit};
ghost use Rattle.walks.specs.Given.{line_given};

use generators::bank::Bank;
use walks::line::Line;

// Its bank has the line's components, and every walk at most 4,096 states.
#[derive(Drop)]
pub(crate) struct Whole<'a, B: Bank> {
    pub(crate) line: &'a Line<B>,
    ghost fit: { SizesFit (line_given B.Bank.list line.now) (length (B.Bank.list line.now.bank)) },
}
