// Generators piled in code: nested pairs, each of a generator and the bank of those after it.
ghost use Rattle.std.specs.Prelude.{[], ◌∷◌};

use crate::bank::Bank;
use crate::generator::Generator;
use model::next::Next;

// The bank of no generator.
#[derive(Clone, Copy)]
pub struct Empty;

impl Bank for Empty {
    ghost list = { λ _. [] };

    ghost formed = { λ _. tt };

    fn len(&self) -> u8 {
        0
    }

    fn count(&self, _component: u8) -> u16 {
        0
    }

    fn initial(&self, _component: u8) -> u16 {
        0
    }

    fn knows(&self, _component: u8, _event: u8) -> bool {
        false
    }

    fn marked(&self, _component: u8, _state: u16) -> bool {
        false
    }

    fn next(&self, _component: u8, _state: u16, _event: u8) -> Next {
        Next::Foreign
    }
}

// The first generator, and the bank of the rest. Each reply has its own type and arguments, so the five matches on the component stay: closures for both
// sides would be longer.
#[derive(Drop)]
pub struct Pile<G: Generator, B: Bank> {
    pub first: G,
    pub rest: B,
}

impl<G: Generator, B: Bank> Bank for Pile<G, B> {
    ghost list = { λ p. G.Generator.meaning p.first ∷ B.Bank.list p.rest };

    ghost formed = { λ p. (G.Generator.formed p.first, B.Bank.formed p.rest) };

    fn len(&self) -> u8 {
        self.rest.len().saturating_add(1)
    }

    fn count(&self, component: u8) -> u16 {
        match component {
            0 => self.first.count(),
            _ => self.rest.count(component - 1),
        }
    }

    fn initial(&self, component: u8) -> u16 {
        match component {
            0 => self.first.initial(),
            _ => self.rest.initial(component - 1),
        }
    }

    fn knows(&self, component: u8, event: u8) -> bool {
        match component {
            0 => self.first.knows(event),
            _ => self.rest.knows(component - 1, event),
        }
    }

    fn marked(&self, component: u8, state: u16) -> bool {
        match component {
            0 => self.first.marked(state),
            _ => self.rest.marked(component - 1, state),
        }
    }

    fn next(&self, component: u8, state: u16, event: u8) -> Next {
        match component {
            0 => self.first.next(state, event),
            _ => self.rest.next(component - 1, state, event),
        }
    }
}
