// The rows of a running line.
ghost use Rattle.std.specs.Prelude.{◌≡◌, slice_index_or};
ghost use Rattle.hisc.specs.Lines.{initial};
ghost use Rattle.line.specs.Checked.{Runs};
ghost use Rattle.walks.specs.Given.{line_given};
ghost use Rattle.line.specs.Steps.{followed, Stepped};
ghost use Rattle.model.specs.Generators.{nothing};
ghost use Rattle.walks.specs.Rows.{row_state};

use crate::passed::Passed;
use crate::running::Running;
use generators::bank::Bank;
use model::fault::Fault;
use model::next::Next;
use walks::row::Row;

// The component's state after the event, unless it knows and forbids it.
fn follow<B: Bank>(bank: &B, component: u8, state: u16, event: u8) -> Option<u16>
    ensures { result ≡ followed ((slice_index_or (B.Bank.list bank.now) component nothing).next state event) state }
{
    match bank.next(component, state, event) {
        Next::Foreign => Some(state),
        Next::Forbidden => None,
        Next::To(target) => Some(target),
    }
}

impl<B: Bank> Passed<B> {
    // All initial states.
    pub(crate) fn begin(&self) -> Row
        ensures state { row_state result ≡ initial (line_given B.Bank.list self.now.line) }
        ensures runs { Runs B.Bank.list self.now.line result }
    {
        Row::initial(&self.line.bank)
    }
}

impl<B: Bank> Running<B> {
    // The states after the event, or why it cannot happen. Each component is asked once.
    pub(crate) fn step(&self, event: u8) -> Result<Row, Fault>
        ensures { Stepped B.Bank.list self.now.passed.line (row_state self.now.row) event result }
    {
        let line = &self.passed.line;
        if event >= line.chart.events() {
            return Err(Fault::EventNumber { event });
        }
        let mut states = self.row.states;
        let count = usize::from(line.chart.components());
        for (component, state) in states[..count].iter_mut().enumerate() {
            let component = component as u8;
            let Some(moved) = follow(&line.bank, component, *state, event) else {
                return Err(Fault::Refused { component, event });
            };
            *state = moved;
        }
        Ok(Row { states })
    }
}
