// A bank: a list of generators, reached by number.
ghost use Rattle.std.specs.Prelude.{◌≡◌, min, List, length, slice_index_or};
ghost use Rattle.model.specs.Generators.{Gen, AllFormed, nothing};

use model::next::Next;

// Every reply about component c is that of the list's element c, and past the list's end 0, no or foreign.
pub trait Bank {
    ghost list: { Self → List Gen };

    ghost formed: { (b : Self) → AllFormed (list b) };

    // How many components there are, 255 for any number above.
    fn len(&self) -> u8
        ensures { result ≡ min 255 (length (list self.now)) };

    fn count(&self, component: u8) -> u16
        ensures { result ≡ (slice_index_or (list self.now) component nothing).count };

    fn initial(&self, component: u8) -> u16
        ensures { result ≡ (slice_index_or (list self.now) component nothing).initial };

    fn knows(&self, component: u8, event: u8) -> bool
        ensures { result ≡ (slice_index_or (list self.now) component nothing).knows event };

    fn marked(&self, component: u8, state: u16) -> bool
        ensures { result ≡ (slice_index_or (list self.now) component nothing).marked state };

    fn next(&self, component: u8, state: u16, event: u8) -> Next
        ensures { result ≡ (slice_index_or (list self.now) component nothing).next state event };
}

// A bank that is lent is a bank too.
impl<'a, B: Bank> Bank for &'a B {
    ghost list = { λ b. B.Bank.list b.now };

    ghost formed = { λ b. B.Bank.formed b.now };

    fn len(&self) -> u8 {
        (**self).len()
    }

    fn count(&self, component: u8) -> u16 {
        (**self).count(component)
    }

    fn initial(&self, component: u8) -> u16 {
        (**self).initial(component)
    }

    fn knows(&self, component: u8, event: u8) -> bool {
        (**self).knows(component, event)
    }

    fn marked(&self, component: u8, state: u16) -> bool {
        (**self).marked(component, state)
    }

    fn next(&self, component: u8, state: u16, event: u8) -> Next {
        (**self).next(component, state, event)
    }
}
