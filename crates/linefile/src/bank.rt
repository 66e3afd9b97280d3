// A line file as a bank: its bodies are asked where they lie.
ghost use Rattle.std.specs.Prelude.{◌≡◌, ℕ, ◌+◌, not, ◌&&◌, [], MatchOption, slice_index_or};
ghost use Rattle.model.specs.Components.{level_of, is_interface};
ghost use Rattle.model.specs.Generators.{nothing};
ghost use Rattle.model.specs.Readings.{meant};
ghost use Rattle.model.specs.Sets.{member};
ghost use Rattle.charts.specs.Meanings.{chart_of};
ghost use Rattle.charts.proofs.Rules.{well-charted};
ghost use Rattle.generators.specs.Selfloops.{looped};
ghost use Rattle.makes.specs.Meanings.{gen_of};
ghost use Rattle.makes.specs.Shapes.{shape, shape_in};
ghost use Rattle.linefile.specs.Layout.{texts};
ghost use Rattle.linefile.specs.Bank.{alphabet_of, list_from};
ghost use Rattle.linefile.specs.Formed.{list-formed};
ghost use Rattle.linefile.specs.File.{bank_reading};

use crate::contents::Contents;
use charts::chart::Chart;
use generators::bank::Bank;
use generators::generator::Generator;
use generators::selfloop::Selfloop;
use makes::make::Make;
use model::component::{is_interface, level_of};
use model::fault::Fault;
use model::next::Next;
use model::set::EventSet;

// The components of a line file. Plants and supervisors stand under a selfloop layer with their level's alphabet, interfaces stand bare.
#[derive(Clone, Copy)]
pub struct FileBank<'a> {
    chart: Chart,
    // the body of component c stands at c + 1: fixed memory, no heap
    bodies: [&'a [u8]; 27],
}

impl<'a> FileBank<'a> {
    // Reads a line file: header, contents, event body, and the bodies of the components in turn.
    pub fn read(file: &'a [u8]) -> Result<FileBank<'a>, Fault>
        ensures { meant (λ b. list_from (chart_of b.chart) (texts b.bodies)) result ≡ bank_reading file.now }
    {
        let contents = Contents::read(file)?;
        let chart = contents.chart()?;
        contents.read_components()?;
        Ok(FileBank {
            chart,
            bodies: contents.bodies,
        })
    }

    // The make of a component; beyond the last body that of no bytes.
    fn make(&self, component: u8) -> Make<'a>
        ensures { shape result ≡ shape_in (chart_of self.now.chart).events (slice_index_or (texts self.now.bodies) (component + 1) []) }
    {
        let body = self.bodies.get(usize::from(component) + 1);
        Make::cut(body.copied().unwrap_or(&[]), self.chart.events())
    }

    // The events of the component's layer: its level's alphabet, and none for an interface.
    fn layer(&self, component: u8) -> EventSet
        ensures { (e : ℕ) → member result.word e ≡ (not (is_interface component) && alphabet_of (chart_of self.now.chart) (level_of component) e) }
    {
        match level_of(component) {
            _ if is_interface(component) => EventSet::EMPTY,
            0 => self.chart.high_alphabet(),
            level => self.chart.level_alphabet(level),
        }
    }

    // The component under its layer; there is none beyond the last.
    fn get(&self, component: u8) -> Option<Selfloop<Make<'a>>>
        ensures { let there = slice_index_or (list_from (chart_of self.now.chart) (texts self.now.bodies)) component nothing in MatchOption result (there ≡ nothing) (λ s. there ≡ looped (gen_of (shape s.inner)) (member s.events.word)) }
    {
        if component < self.chart.components() {
            Some(Selfloop {
                inner: self.make(component),
                events: self.layer(component),
            })
        } else {
            None
        }
    }
}

impl<'a> Bank for FileBank<'a> {
    ghost list = { λ b. list_from (chart_of b.chart) (texts b.bodies) };

    ghost formed = { λ b. list-formed (chart_of b.chart) (well-charted b.chart) (texts b.bodies) };

    fn len(&self) -> u8 {
        self.chart.components()
    }

    fn count(&self, component: u8) -> u16 {
        self.get(component).map_or(0, |c| c.count())
    }

    fn initial(&self, component: u8) -> u16 {
        self.get(component).map_or(0, |c| c.initial())
    }

    fn knows(&self, component: u8, event: u8) -> bool {
        self.get(component).is_some_and(|c| c.knows(event))
    }

    fn marked(&self, component: u8, state: u16) -> bool {
        self.get(component).is_some_and(|c| c.marked(state))
    }

    fn next(&self, component: u8, state: u16, event: u8) -> Next {
        self.get(component)
            .map_or(Next::Foreign, |c| c.next(state, event))
    }
}
