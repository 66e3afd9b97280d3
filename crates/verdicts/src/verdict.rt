// The verdict on a line file, as linecheck writes it.
ghost use Rattle.std.specs.Prelude.{◌≡◌, true, length, is_ok};
ghost use Rattle.hisc.specs.Law.{Law};
ghost use Rattle.line.specs.Lent.{lent};
ghost use Rattle.walks.specs.Given.{line_given};
ghost use Rattle.verdicts.specs.Verdicts.{CheckedAs, PassedKeepsLaw, VerdictOn, told_by, told_in, told_of};

use generators::bank::Bank;
use line::cells::Cells;
use line::check::check;
use line::passed::Passed;
use linefile::bank::FileBank;
use linefile::chart::read_chart;
use measure::sizes::WalkSizes;
use model::fault::Fault;
use std::fmt;
use walks::line::Line;

// The line may run: it has so many low levels, and walks of these sizes.
#[derive(Clone, Copy)]
pub struct Verdict {
    pub levels: u8,
    pub sizes: WalkSizes,
}

impl<B: Bank> From<&Passed<B>> for Verdict {
    ghost from_gives = { λ p v. told_by v ≡ told_of (line_given B.Bank.list p.now.line) };

    fn from(passed: &Passed<B>) -> Verdict {
        Verdict {
            levels: passed.chart().levels(),
            sizes: passed.sizes(),
        }
    }
}

// The verdict on a line over any bank.
fn judge<B: Bank + Drop>(line: Line<B>, cells: &mut Cells<'_>) -> Result<Verdict, Fault>
    ensures answer { CheckedAs (line_given B.Bank.list line) (length (B.Bank.list line.bank)) (lent cells.old) (told_in result) }
    ensures law { is_ok result ≡ true → Law (line_given B.Bank.list line) }
    ensures lengths { lent cells.new ≡ lent cells.old }
{
    let passed = check(line, cells).map_err(|(fault, _)| fault)?;
    Ok(Verdict::from(&passed))
}

impl Verdict {
    // Reads the chart and every component, and checks the line that they make, with work cells that are lent.
    pub fn on(file: &[u8], cells: &mut Cells<'_>) -> Result<Verdict, Fault>
        ensures answer { VerdictOn file.now (lent cells.old) (told_in result) }
        ensures law { PassedKeepsLaw file.now (told_in result) }
        ensures lengths { lent cells.new ≡ lent cells.old }
    {
        let chart = read_chart(file)?;
        let bank = FileBank::read(file)?;
        judge(Line { chart, bank }, cells)
    }
}

// The size of the high walk, and those of the low walks 1 to n.
impl fmt::Display for Verdict {
    fn fmt<W: fmt::Write>(&self, f: &mut fmt::Formatter<W>) -> fmt::Result {
        let WalkSizes { high, lows } = &self.sizes;
        write!(f, "passed {high}")?;
        for size in lows.iter().take(usize::from(self.levels)) {
            write!(f, " {size}")?;
        }
        Ok(())
    }
}
