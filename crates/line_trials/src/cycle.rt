// A generator of the trials' own: it goes round three states by three events.
ghost use Rattle.line_trials.specs.Cycles.{cycle, cycle-formed};

use generators::generator::Generator;
use model::next::Next;

// From state 0 by the first event, from 1 by the second, from 2 by the third; 0 is initial and alone marked.
#[derive(Clone, Copy)]
pub struct Cycle {
    pub first: u8,
    pub second: u8,
    pub third: u8,
}

// Events from here up are in no alphabet.
const EVENTS: u8 = 64;

impl Generator for Cycle {
    ghost meaning = { λ c. cycle c.first c.second c.third };

    ghost formed = { λ c. cycle-formed c.first c.second c.third };

    fn count(&self) -> u16 {
        3
    }

    fn initial(&self) -> u16 {
        0
    }

    fn knows(&self, event: u8) -> bool {
        event < EVENTS && (event == self.first || event == self.second || event == self.third)
    }

    fn marked(&self, state: u16) -> bool {
        state == 0
    }

    fn next(&self, state: u16, event: u8) -> Next {
        if !self.knows(event) {
            return Next::Foreign;
        }
        match state {
            0 if event == self.first => Next::To(1),
            1 if event == self.second => Next::To(2),
            2 if event == self.third => Next::To(0),
            _ => Next::Forbidden,
        }
    }
}
