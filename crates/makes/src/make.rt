// Generators as bodies of bytes: the parts of a body, and its reader.
ghost use Rattle.std.specs.Prelude.{◌≡◌, None};
ghost use Rattle.model.specs.Readings.{meant};
ghost use Rattle.makes.specs.Shapes.{shape, shape_in, table_in, counter_in, stock_in};
ghost use Rattle.makes.specs.Bodies.{body_reading};

use crate::bytes::{byte_or, split};
use crate::fits::Body;
use model::fault::Fault;

// A generator by the parts of its body, over the events of a chart, numbered from 0.
#[derive(Clone, Copy)]
pub enum Make<'a> {
    // T, a count from 1 to 200, an initial state, a letter for each event (+ known, - not), a mark for each state (m or -),
    // and a target for each state and event, row by row: a state, or 255 for no move
    Table {
        count: u8,
        initial: u8,
        letters: &'a [u8],
        marks: &'a [u8],
        targets: &'a [u8],
    },
    // C, a capacity from 1 to 199, a letter for each event (- unknown, u up, d down, s stays); the states are 0 to the capacity
    Counter {
        capacity: u8,
        letters: &'a [u8],
    },
    // I, 0, four columns, each an event or 255, no event twice: columns 0 and 1 lead from 0 to 1, columns 2 and 3 back
    Stock {
        columns: [u8; 4],
    },
}

// The byte of a column with no event, and that of a target where there is no move.
pub const NO_EVENT: u8 = 255;

pub const NO_MOVE: u8 = 255;

impl<'a> Make<'a> {
    // Reads a body that stands in code.
    pub fn read(body: &'a [u8], events: u8) -> Result<Make<'a>, Fault>
        ensures { meant shape result ≡ body_reading None 0 events body.now }
    {
        Make::read_at(body, events, None, 0)
    }

    // Reads the body of a component, which begins at the place `origin` of its file.
    pub fn read_at(
        body: &'a [u8],
        events: u8,
        component: Option<u8>,
        origin: u16,
    ) -> Result<Make<'a>, Fault>
        ensures { meant shape result ≡ body_reading component origin events body.now }
    {
        let bytes = body;
        let count = byte_or(bytes, 1, 0);
        let tested = Body {
            bytes,
            events,
            count,
        };
        whole(&tested, component, origin)?;
        Ok(Make::cut(bytes, events))
    }

    // The parts of a body, untested and in constant time: for a body that was read before.
    #[tactic(auto, unfolding(crate::specs::Shapes::shape_in))]
    pub fn cut(body: &'a [u8], events: u8) -> Make<'a>
        ensures { shape result ≡ shape_in events body.now }
    {
        match byte_or(body, 0, 0) as char {
            'T' => cut_table(body, events),
            'C' => cut_counter(body),
            _ => cut_stock(body),
        }
    }
}

// Refuses a body that departs from its make, or of which bytes are missing.
fn whole(body: &Body, component: Option<u8>, origin: u16) -> Result<(), Fault>
    ensures { meant (λ _. shape_in body.now.events body.now.bytes.now) result ≡ body_reading component origin body.now.events body.now.bytes.now }
{
    let place = body.departure();
    let end = body.size();
    if place < body.bytes.len() || place < end {
        // a usize has no From into u32; a departure is at most a size, which is small
        return Err(Fault::Body {
            component,
            place: u32::from(origin) + place as u32,
        });
    }
    Ok(())
}

fn cut_table(body: &[u8], events: u8) -> Make<'_>
    ensures { shape result ≡ table_in events body.now }
{
    let count = byte_or(body, 1, 0);
    let (_, parts) = split(body, 3);
    let (letters, rest) = split(parts, usize::from(events));
    let (marks, targets) = split(rest, usize::from(count));
    Make::Table {
        count,
        initial: byte_or(body, 2, 0),
        letters,
        marks,
        targets,
    }
}

fn cut_counter(body: &[u8]) -> Make<'_>
    ensures { shape result ≡ counter_in body.now }
{
    let (_, letters) = split(body, 2);
    Make::Counter {
        capacity: byte_or(body, 1, 0),
        letters,
    }
}

fn cut_stock(body: &[u8]) -> Make<'_>
    ensures { shape result ≡ stock_in body.now }
{
    let columns = [
        byte_or(body, 2, NO_EVENT),
        byte_or(body, 3, NO_EVENT),
        byte_or(body, 4, NO_EVENT),
        byte_or(body, 5, NO_EVENT),
    ];
    Make::Stock { columns }
}
