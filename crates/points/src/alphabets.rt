// The first point: each component knows exactly its alphabet.
ghost use Rattle.std.specs.Prelude.{◌≡◌, ℕ, ◌<◌, List, [], ◌∷◌, slice_index_or};
ghost use Rattle.model.specs.Generators.{Gen, nothing};
ghost use Rattle.model.specs.Sets.{member};
ghost use Rattle.hisc.specs.Lines.{components};
ghost use Rattle.hisc.specs.Points.{alphabet_of};
ghost use Rattle.hisc.specs.Verdict.{alphabet_known, listed};
ghost use Rattle.walks.specs.Given.{line_from};
ghost use Rattle.points.specs.Lowest.{alike, Found};
ghost use Rattle.points.specs.Tried.{TriedAll};
ghost use Rattle.points.specs.Whole.{line_whole};

use crate::whole::Whole;
use charts::chart::Chart;
use generators::bank::Bank;
use model::component::{is_interface, level_of};
use model::fault::Fault;
use model::set::EventSet;

// The alphabet that the component is to know: its level's, an interface its own.
fn alphabet(chart: &Chart, component: u8) -> EventSet
    requires { component < 26 }
    ensures { (gens : List Gen) (e : ℕ) → member result.word e ≡ alphabet_of (line_from chart.now gens) component e }
{
    if component < 2 {
        chart.high_alphabet()
    } else if is_interface(component) {
        chart.interface_alphabet(level_of(component))
    } else {
        chart.level_alphabet(level_of(component))
    }
}

// The lowest event that the component knows and the alphabet lacks, or the other way round. No component knows an event from 64 up.
fn difference<B: Bank>(bank: &B, component: u8, alphabet: EventSet) -> Option<u8>
    ensures { Found 64 (λ e. alike ((slice_index_or (B.list bank.now) component nothing).knows e) (member alphabet.word e)) result }
{
    (0..64).find(|event| bank.knows(component, *event) != alphabet.contains(*event))
}

impl<'a, B: Bank> Whole<'a, B> {
    // Tries the first point, component by component.
    pub(crate) fn alphabets_known(&self) -> Result<(), Fault>
        ensures { TriedAll (line_whole self.now) (listed (components (line_whole self.now)) (λ c. alphabet_known c ∷ [])) result }
    {
        for component in 0..self.line.bank.len() {
            let alphabet = alphabet(&self.line.chart, component);
            if let Some(event) = difference(&self.line.bank, component, alphabet) {
                return Err(Fault::Alphabet {
                    level: level_of(component),
                    component,
                    event,
                });
            }
        }
        Ok(())
    }
}
