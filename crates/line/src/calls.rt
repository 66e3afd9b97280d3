// The calls of a running line.
ghost use Rattle.std.specs.Prelude.{◌≡◌, ◌≤◌, length, drop};
ghost use Rattle.hisc.specs.Calls.{Offer, Guide, Possible, Look, Restart, restarted, CallsAgree};
ghost use Rattle.hisc.specs.Law.{Assured, Law};
ghost use Rattle.hisc.specs.Lines.{initial};
ghost use Rattle.hisc.specs.Sizes.{bound};
ghost use Rattle.line.specs.Answers.{offered, guided, written, listed, shown, line_in, state_in, Answered};
ghost use Rattle.walks.specs.Given.{line_given};
ghost use Rattle.line.specs.Home.{Homeward};
ghost use Rattle.line.specs.Lent.{lent};

use crate::cells::Cells;
use crate::passed::Passed;
use crate::running::Running;
use generators::bank::Bank;
use guidance::advice::advice;
use hisc::guide::{Guidance, most_offers};
use model::fault::{Fault, Layer};
use walks::row::Row;

// Begins with all initial states. The passed line is used up. The law holds over every queue of calls from now on.
pub fn make<B: Bank>(passed: Passed<B>) -> Running<B>
    ensures same { result.passed ≡ passed }
    ensures begins { state_in result ≡ initial (line_given B.Bank.list passed.line) }
    ensures law { Law (line_given B.Bank.list passed.line) }
    ensures agree { CallsAgree (line_given B.Bank.list passed.line) }
    ensures assured { Assured (line_given B.Bank.list passed.line) (state_in result) }
{
    let row = passed.begin();
    Running { passed, row }
}

impl<B: Bank> Running<B> {
    // An event of the chart is accepted if every component that knows it permits it, and then all of those move.
    pub fn offer(&mut self, event: u8) -> Result<(), Fault>
        ensures { Answered self.old self.new (Offer event) (offered result) }
    {
        self.row = self.step(event)?;
        Ok(())
    }

    // Writes the events that an offer would accept now to the front of the slice, and returns how many they are.
    pub fn possible(&self, out: &mut [u8]) -> Result<usize, Fault>
        ensures answered { Answered self.now self.now (Possible (length out.old)) (listed result out.new) }
        ensures within { written result ≤ length out.new }
        ensures rest { drop (written result) out.new ≡ drop (written result) out.old }
    {
        if out.len() < 64 {
            return Err(Fault::PossibleSlice);
        }
        // The count is the answer, so a chain would carry it too.
        let mut count = 0;
        for event in 0..self.passed.line.chart.events() {
            if self.step(event).is_ok() {
                out[count] = event;
                count += 1;
            }
        }
        Ok(count)
    }

    // What to offer next on the way home. Three slices of work cells are lent; nothing else changes.
    pub fn guide(&self, cells: &mut Cells<'_>) -> Result<Guidance, Fault>
        ensures answered { Answered self.now self.now (Guide (lent cells.old)) (guided result) }
        ensures lengths { lent cells.new ≡ lent cells.old }
    {
        let shortest = cells
            .first
            .len()
            .min(cells.second.len())
            .min(cells.third.len());
        if shortest < self.passed.sizes().largest() as usize {
            return Err(Fault::WorkCells { layer: Layer::Run });
        }
        let line = &self.passed.line;
        Ok(advice(line, &self.row, cells.first, cells.second).unwrap())
    }

    // The states of the components, 0 beyond the last.
    pub fn look(&self) -> Row
        ensures { Answered self.now self.now Look (shown result) }
    {
        self.row
    }

    // Begins again with all initial states.
    pub fn restart(&mut self)
        ensures { Answered self.old self.new Restart restarted }
    {
        self.row = self.passed.begin();
    }

    // The most offers that the guide needs to lead home, from any state.
    pub fn most_offers(&self) -> u64
        ensures { result ≡ bound (line_in self.now) }
    {
        let sizes = self.passed.sizes();
        let high = sizes.high as u16;
        let low = sizes.largest_low() as u16;
        most_offers(self.passed.line.chart.levels(), high, low)
    }

    // Asks the guide and offers what it names until it says home. Returns how many offers that took.
    pub fn go_home(&mut self, cells: &mut Cells<'_>) -> Result<u64, Fault>
        ensures home { Homeward self.old self.new (lent cells.old) result }
        ensures lengths { lent cells.new ≡ lent cells.old }
    {
        for offers in 0..=self.most_offers() {
            let Guidance::Event(event) = self.guide(cells)? else {
                return Ok(offers);
            };
            self.offer(event)?;
        }
        unreachable!()
    }
}
