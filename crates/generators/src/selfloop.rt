// The selfloop layer: over any generator, with a set of events, again a generator.
ghost use Rattle.generators.specs.Selfloops.{looped};
ghost use Rattle.generators.specs.Formed.{looped-formed, member-small};
ghost use Rattle.model.specs.Sets.{member};

use crate::generator::Generator;
use model::next::Next;
use model::set::EventSet;

// An event of the set that is foreign to `inner` leaves each state as it is.
#[derive(Drop)]
pub struct Selfloop<G: Generator> {
    pub inner: G,
    pub events: EventSet,
}

impl<G: Generator> Generator for Selfloop<G> {
    ghost meaning = { λ s. looped (G.Generator.meaning s.inner) (member s.events.word) };

    ghost formed = { λ s. looped-formed (G.Generator.meaning s.inner) (member s.events.word) (member-small s.events.word) (G.Generator.formed s.inner) };

    fn count(&self) -> u16 {
        self.inner.count()
    }

    fn initial(&self) -> u16 {
        self.inner.initial()
    }

    fn knows(&self, event: u8) -> bool {
        self.inner.knows(event) || self.events.contains(event)
    }

    fn marked(&self, state: u16) -> bool {
        self.inner.marked(state)
    }

    fn next(&self, state: u16, event: u8) -> Next {
        match self.inner.next(state, event) {
            Next::Foreign if self.events.contains(event) => {
                if state < self.inner.count() {
                    Next::To(state)
                } else {
                    Next::Forbidden
                }
            }
            reply => reply,
        }
    }
}
