// A walk of a line that was measured.
ghost use Rattle.std.specs.Prelude.{◌≡◌, length};
ghost use Rattle.hisc.specs.Lines.{components};
ghost use Rattle.walks.specs.Fits.{Fits};
ghost use Rattle.walks.specs.Given.{line_given};

use generators::bank::Bank;
use walks::line::Line;
use walks::part::Part;
use walks::walk::Walk;

// The bank has the line's components, and the walk is that of the part.
#[derive(Drop)]
pub(crate) struct Fitted<'a, B: Bank> {
    pub(crate) line: &'a Line<B>,
    pub(crate) part: Part,
    pub(crate) walk: Walk,
    ghost complete: { length (B.Bank.list line.now.bank) ≡ components (line_given B.Bank.list line.now) },
    ghost fits: { Fits walk (line_given B.Bank.list line.now) part },
}
