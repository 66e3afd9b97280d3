// Walks that are known to fit.
ghost use Rattle.std.specs.Prelude.{◌≡◌, true};
ghost use Rattle.walks.specs.Parts.{has_part};

use crate::fitted::Fitted;
use crate::whole::Whole;
use generators::bank::Bank;
use walks::part::Part;
use walks::walk::Walk;

impl<'a, B: Bank> Whole<'a, B> {
    ghost use Rattle.points.specs.Whole.{line_whole, line_of};

    // The walk of the part.
    pub(crate) fn walk(&self, part: Part) -> Fitted<'a, B>
        requires { has_part (line_whole self.now).chart.levels part ≡ true }
        ensures line { line_of result ≡ line_whole self.now }
        ensures part { result.part ≡ part }
    {
        let Ok(walk) = Walk::of(self.line, part) else {
            unreachable!()
        };
        Fitted {
            line: self.line,
            part,
            walk,
        }
    }
}
