// A line that runs: a line that passed the check, and a row of states that it reaches.
ghost use Rattle.std.specs.Prelude.{◌≡◌};
ghost use Rattle.line.specs.Checked.{Runs};

use crate::passed::Passed;
use charts::chart::Chart;
use generators::bank::Bank;
use walks::row::Row;

// Every such value carries that its states are reached.
#[derive(Drop)]
pub struct Running<B: Bank> {
    pub(crate) passed: Passed<B>,
    pub(crate) row: Row,
    ghost runs: { ∥ Runs B.Bank.list passed.line row ∥₁ },
}

// The three calls of a passed line again: these tell what is known of a running one.
#[tactic(auto, using(crate::proofs::Known::runs_in))]
impl<B: Bank> Running<B> {
    // The bank again; the running line is used up.
    pub fn unseal(self) -> B
        ensures { (result ≡ self.passed.line.bank) × Runs B.Bank.list self.passed.line self.row }
    {
        let Running { passed, row } = self;
        passed.unseal()
    }

    pub fn bank(&self) -> &B
        ensures { (result.now ≡ self.now.passed.line.bank) × Runs B.Bank.list self.now.passed.line self.now.row }
    {
        self.passed.bank()
    }

    pub fn chart(&self) -> &Chart
        ensures { (result.now ≡ self.now.passed.line.chart) × Runs B.Bank.list self.now.passed.line self.now.row }
    {
        self.passed.chart()
    }
}
