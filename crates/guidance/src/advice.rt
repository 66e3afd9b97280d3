// What the guide answers in the states of a row.
//
// Each function gives what the guide's rule gives, or the refusal of a search that it takes. No search refuses where every walk can be searched from the
// row's states.
ghost use Rattle.std.specs.Prelude.{◌≡◌, suc, ◌<◌, ◌≤◌, true, is_ok, IfOk};
ghost use Rattle.model.specs.Charts.{IsLevel};
ghost use Rattle.model.specs.Numbers.{first};
ghost use Rattle.hisc.specs.Points.{answer_enabled, at_rest, to_answer};
ghost use Rattle.hisc.specs.Guide.{named, any_answer, answer_or, by_kind, homeward, low_distance, not_at_rest, guide};
ghost use Rattle.walks.specs.Given.{line_given};
ghost use Rattle.walks.specs.Rows.{row_state};
ghost use Rattle.guidance.specs.Ready.{Ready, Gives, lent, maybe, step_by};

use generators::bank::Bank;
use hisc::guide::Guidance;
use model::kind::Kind;
use search::answers::Way;
use walks::aim::Aim;
use walks::line::Line;
use walks::part::Part;
use walks::refusal::Refusal;
use walks::row::Row;

// A row of states of a line.
#[derive(Drop)]
struct Place<'a, B> {
    line: &'a Line<B>,
    row: &'a Row,
}

// The step that a way gives: at its end what stands there, else its first event.
fn step(way: Way, there: Guidance) -> Guidance
    ensures { result ≡ step_by way there }
{
    match way {
        Way::Unreachable => Guidance::NoEvent,
        Way::Here => there,
        Way::By { event, .. } => Guidance::Event(event),
    }
}

// The event, if there is one.
fn named(event: Option<u8>) -> Guidance
    ensures { result ≡ named (maybe event) }
{
    match event {
        Some(event) => Guidance::Event(event),
        None => Guidance::NoEvent,
    }
}

// The two slices of cells stay parameters: a struct of them would have to promise their lengths at every call.
impl<'a, B: Bank> Place<'a, B> {
    // The lowest answer that is possible in the level's walk.
    fn lowest_answer(&self, level: u8) -> Option<u8>
        ensures { maybe result ≡ first (line_given B.list self.now.line.now).chart.events (answer_enabled (line_given B.list self.now.line.now) level (row_state self.now.row.now)) }
    {
        (0..self.line.chart.events()).find(|event| {
            self.line.chart.is_answer(*event)
                && self.line.possible_at(Part::Low(level), self.row, *event)
        })
    }

    // Toward any answer of the level.
    fn toward_any(
        &self,
        level: u8,
        queue: &mut [u32],
        keys: &mut [u32],
    ) -> Result<Guidance, Refusal>
        requires { IsLevel (line_given B.list self.now.line.now).chart level }
        ensures { Gives (line_given B.list self.now.line.now) (row_state self.now.row.now) (lent queue.old keys.old)
            (λ l x. any_answer l level x) result }
    {
        let way = self
            .line
            .nearest(Aim::AnyAnswer(level), self.row, queue, keys)?;
        Ok(step(way, named(self.lowest_answer(level))))
    }

    // Toward the answer of the level; with no word to it, toward any.
    fn toward_answer(
        &self,
        level: u8,
        event: u8,
        queue: &mut [u32],
        keys: &mut [u32],
    ) -> Result<Guidance, Refusal>
        requires { IsLevel (line_given B.list self.now.line.now).chart level }
        ensures { Gives (line_given B.list self.now.line.now) (row_state self.now.row.now) (lent queue.old keys.old)
            (λ l x. answer_or l level event x (low_distance l level (to_answer l level event) x)) result }
    {
        match self
            .line
            .nearest(Aim::Answer { level, event }, self.row, queue, keys)?
        {
            Way::Unreachable => self.toward_any(level, queue, keys),
            way => Ok(step(way, Guidance::Event(event))),
        }
    }

    // Toward the wanted event, by its kind.
    fn toward_wanted(
        &self,
        event: u8,
        queue: &mut [u32],
        keys: &mut [u32],
    ) -> Result<Guidance, Refusal>
        requires { event < (line_given B.list self.now.line.now).chart.events }
        ensures { Gives (line_given B.list self.now.line.now) (row_state self.now.row.now) (lent queue.old keys.old)
            (λ l x. by_kind l (l.chart.kind event) event x) result }
    {
        match (self.line.chart.kind(event), self.line.chart.owner(event)) {
            (Some(Kind::High), _) => Ok(Guidance::Event(event)),
            (Some(Kind::Request), _) => Ok(Guidance::Event(event)),
            (Some(Kind::Answer), Some(level)) => self.toward_answer(level, event, queue, keys),
            _ => Ok(Guidance::NoEvent),
        }
    }

    // Whether plant and supervisor of the level are marked.
    fn at_rest(&self, level: u8) -> bool
        requires { (1 ≤ level) × (level ≤ 8) }
        ensures { result ≡ at_rest (line_given B.list self.now.line.now) level (row_state self.now.row.now) }
    {
        // the only place of guidance with such numbers
        let plant = 3 * level - 1;
        let supervisor = 3 * level;
        self.line.bank.marked(plant, self.row.state(plant))
            && self
                .line
                .bank
                .marked(supervisor, self.row.state(supervisor))
    }

    // The lowest level whose plant or supervisor is unmarked.
    fn lowest_unrested(&self) -> Option<u8>
        ensures { maybe result ≡ first (suc (line_given B.list self.now.line.now).chart.levels) (not_at_rest (line_given B.list self.now.line.now) (row_state self.now.row.now)) }
    {
        (1..=self.line.chart.levels()).find(|level| !self.at_rest(*level))
    }

    // Toward rest in the lowest level that is not at rest; home if there is none.
    fn toward_rest(&self, queue: &mut [u32], keys: &mut [u32]) -> Result<Guidance, Refusal>
        ensures { Gives (line_given B.list self.now.line.now) (row_state self.now.row.now) (lent queue.old keys.old)
            (λ l x. homeward l (first (suc l.chart.levels) (not_at_rest l x)) x) result }
    {
        let Some(level) = self.lowest_unrested() else {
            return Ok(Guidance::Home);
        };
        let way = self
            .line
            .nearest(Aim::AtRest(level), self.row, queue, keys)?;
        Ok(step(way, Guidance::NoEvent))
    }

    fn advice(&self, queue: &mut [u32], keys: &mut [u32]) -> Result<Guidance, Refusal>
        ensures { Gives (line_given B.list self.now.line.now) (row_state self.now.row.now) (lent queue.old keys.old)
            (λ l x. guide l x) result }
    {
        match self.line.nearest(Aim::HighMarked, self.row, queue, keys)? {
            Way::Unreachable => Ok(Guidance::NoEvent),
            Way::Here => self.toward_rest(queue, keys),
            Way::By { event, .. } => self.toward_wanted(event, queue, keys),
        }
    }
}

// The guide's answer in the row's states.
pub fn advice<B: Bank>(
    line: &Line<B>,
    row: &Row,
    queue: &mut [u32],
    keys: &mut [u32],
) -> Result<Guidance, Refusal>
    ensures value { IfOk result (λ g. g ≡ guide (line_given B.list line.now) (row_state row.now)) }
    ensures succeeds { Ready (line_given B.list line.now) (row_state row.now) (lent queue.old keys.old) → is_ok result ≡ true }
{
    Place { line, row }.advice(queue, keys)
}
