// A generator by its meaning, and its five questions.
ghost use Rattle.std.specs.Prelude.{◌≡◌};
ghost use Rattle.model.specs.Generators.{Gen, WellFormed};

use model::next::Next;

// Asking changes nothing, and every reply is the meaning's.
pub trait Generator {
    ghost meaning: { Self → Gen };

    ghost formed: { (g : Self) → WellFormed (meaning g) };

    // How many states there are.
    fn count(&self) -> u16
        ensures { result ≡ (meaning self.now).count };

    fn initial(&self) -> u16
        ensures { result ≡ (meaning self.now).initial };

    // Whether the event is in the alphabet.
    fn knows(&self, event: u8) -> bool
        ensures { result ≡ (meaning self.now).knows event };

    fn marked(&self, state: u16) -> bool
        ensures { result ≡ (meaning self.now).marked state };

    fn next(&self, state: u16, event: u8) -> Next
        ensures { result ≡ (meaning self.now).next state event };
}
