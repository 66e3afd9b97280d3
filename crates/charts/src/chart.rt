// The chart of events as sets: 64-bit words, one bit for each event.
ghost use Rattle.std.specs.Prelude.{◌≡◌, ℕ, ◌≤◌, true};
ghost use Rattle.model.specs.Charts.{owns_request, owns_answer};
ghost use Rattle.charts.specs.Sets.{chart_from, Agree};

use crate::header::Header;
use model::set::EventSet;

mod questions;
mod rows;

// The events of a chart by what they are.
#[derive(Clone, Copy)]
struct Sets {
    // set 0 has the H events, set j the events that level j owns, and those beyond the last level none: fixed memory, no heap
    owned: [EventSet; 9],
    requests: EventSet,
    answers: EventSet,
    uncontrollable: EventSet,
}

// Every chart that exists keeps the rules: the sets say the same of each event, every owner is a level (0 is the high one), and each low level owns
// a request and an answer.
#[derive(Clone, Copy)]
pub struct Chart {
    header: Header,
    sets: Sets,
    ghost agree: { Agree header.levels header.events sets },
    ghost asked: { (j : ℕ) → 1 ≤ j → j ≤ header.levels → owns_request (chart_from header.levels header.events sets) j ≡ true },
    ghost answered: { (j : ℕ) → 1 ≤ j → j ≤ header.levels → owns_answer (chart_from header.levels header.events sets) j ≡ true },
}
