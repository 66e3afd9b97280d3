// The meaning of lines, the ten points, the guide and the calls, and the argument from the levels to the line.
// A line is a chart of events and a list of components; the definitions stand in specs/. Each function below carries a theorem.
#![tactic(auto)]

pub mod guide;

ghost use Rattle.std.specs.Prelude.{◌≡◌};
ghost use Rattle.hisc.specs.Calls.{AllCallsAgree};
ghost use Rattle.hisc.specs.Distances.{Shortest};
ghost use Rattle.hisc.specs.Law.{AssuredThroughout, Lawful};
ghost use Rattle.hisc.specs.Rule.{KeepsRule};
ghost use Rattle.hisc.specs.Sizes.{bound};
ghost use Rattle.hisc.specs.SmallLine.{ChoiceLinePasses, EachRefused, LinesRefused, SmallLinePasses, small_line};
ghost use Rattle.hisc.specs.Verdict.{OneAnswer};

// Every line with the ten points keeps the law over every queue of calls.
pub fn lawful() -> u8
    ensures { Lawful }
{
    0
}

// Every state that such a line reaches is assured: the guide leads home from it within the bound, and uncontrollable events are free.
pub fn assured() -> u8
    ensures { AssuredThroughout }
{
    0
}

// The replies and the states of a queue of calls fit together, in every line.
pub fn calls_agree() -> u8
    ensures { AllCallsAgree }
{
    0
}

// The tests in their order are the ten points; no line has two first faults, and none has one beside the ten points; the check has one answer at most.
pub fn one_answer() -> u8
    ensures { OneAnswer }
{
    0
}

// In every state of every line the guide's answer is the one that its rule gives, with every tie to the lowest event.
pub fn keeps_rule() -> u8
    ensures { KeepsRule }
{
    0
}

// Distances are the lengths of shortest words, and below the walk's size.
pub fn shortest() -> u8
    ensures { Shortest }
{
    0
}

// Lines with the ten points, and lines without them: the points are neither impossible nor empty.
pub fn small_line_passes() -> u8
    ensures { (SmallLinePasses) × (ChoiceLinePasses) }
{
    0
}

pub fn lines_refused() -> u8
    ensures { (LinesRefused) × (EachRefused) }
{
    0
}

// The most offers that the guide needs on the small line.
pub fn small_line_bound() -> u64
    ensures { result ≡ bound small_line }
{
    guide::most_offers(1, 6, 6)
}
