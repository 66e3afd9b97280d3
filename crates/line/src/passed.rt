// A line that passed the check.
ghost use Rattle.std.specs.Prelude.{◌≡◌};
ghost use Rattle.line.specs.Checked.{Checked};

use charts::chart::Chart;
use generators::bank::Bank;
use walks::line::Line;

// Every such value carries what the check found.
#[derive(Drop)]
pub struct Passed<B: Bank> {
    pub(crate) line: Line<B>,
    ghost checked: { ∥ Checked B.Bank.list line ∥₁ },
}

impl<B: Bank> Passed<B> {
    // The bank again; the passed line is used up.
    pub fn unseal(self) -> B
        ensures { (result ≡ self.line.bank) × Checked B.Bank.list self.line }
    {
        let Passed { line } = self;
        let Line { chart, bank } = line;
        bank
    }

    pub fn bank(&self) -> &B
        ensures { (result.now ≡ self.now.line.bank) × Checked B.Bank.list self.now.line }
    {
        &self.line.bank
    }

    pub fn chart(&self) -> &Chart
        ensures { (result.now ≡ self.now.line.chart) × Checked B.Bank.list self.now.line }
    {
        &self.line.chart
    }
}
