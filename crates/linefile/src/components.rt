// The bodies of a line file's components.
ghost use Rattle.std.specs.Prelude.{◌≡◌};
ghost use Rattle.model.specs.Components.{components};
ghost use Rattle.model.specs.Readings.{meant, in_turn};
ghost use Rattle.linefile.specs.File.{component_reading};

use crate::contents::{Contents, contents_end};
use makes::make::Make;
use model::fault::Fault;

impl<'a> Contents<'a> {
    // Reads the bodies in turn, each where the one before it ends.
    pub(crate) fn read_components(&self) -> Result<(), Fault>
        ensures { meant (λ _. tt) result ≡ in_turn (component_reading self.now.header.levels self.now.header.events self.now.file.now) (components self.now.header.levels) }
    {
        let events = self.header.events();
        let mut start = contents_end(self.header) + self.bodies[0].len();
        // the reader is told the component's number and, by a cast that fits, its place, so the loop goes by the number
        for component in 0..self.header.components() {
            let body = self.bodies[usize::from(component) + 1];
            Make::read_at(body, events, Some(component), start as u16)?;
            start += body.len();
        }
        Ok(())
    }
}
