// Calls as values, and queues of them.
ghost use Rattle.std.specs.Prelude.{◌≡◌, length};
ghost use Rattle.line.specs.Answers.{Answered};
ghost use Rattle.line.specs.Queues.{call_of, reply_of, Performed};
ghost use Rattle.line.specs.Lent.{lent};

use crate::cells::Cells;
use crate::queue::{Call, Reply};
use crate::running::Running;
use generators::bank::Bank;
use model::fault::Fault;

impl<B: Bank> Running<B> {
    // Makes the call, with what is lent for it: a slice for the possible events, and three of work cells.
    pub fn answer(
        &mut self,
        call: Call,
        out: &mut [u8],
        cells: &mut Cells<'_>,
    ) -> Result<Reply, Fault>
        ensures answered { Answered self.old self.new (call_of (length out.old) (lent cells.old) call) (reply_of out.new result) }
        ensures lengths { lent cells.new ≡ lent cells.old }
    {
        // a match, since calls are values that a queue holds
        Ok(match call {
            Call::Offer(event) => {
                self.offer(event)?;
                Reply::Accepted
            }
            Call::Guide => Reply::Guided(self.guide(cells)?),
            Call::Possible => Reply::Listed(self.possible(out)?),
            Call::Look => Reply::Shown(self.look()),
            Call::Restart => {
                self.restart();
                Reply::Restarted
            }
        })
    }

    // Makes the calls in turn, and returns how many were refused.
    pub fn perform(&mut self, calls: &[Call], out: &mut [u8], cells: &mut Cells<'_>) -> usize
        ensures performed { Performed self.old self.new (length out.old) (lent cells.old) calls.now result }
        ensures lengths { lent cells.new ≡ lent cells.old }
    {
        // Tried as a chain: the proof knows nothing of what a closure returned that changes what it captures.
        let mut refused = 0;
        for call in calls {
            if self.answer(*call, out, cells).is_err() {
                refused += 1;
            }
        }
        refused
    }
}
