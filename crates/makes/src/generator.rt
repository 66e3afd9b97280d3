// A make as a generator: every reply is that of its meaning.
ghost use Rattle.std.specs.Prelude.{◌≡◌, ◌+◌};
ghost use Rattle.makes.specs.Shapes.{shape};
ghost use Rattle.makes.specs.Meanings.{gen_of, counted, table_initial, table_knows, table_marks, table_target, table_next, counter_knows, counter_next, stock_knows, stock_next};
ghost use Rattle.makes.specs.Formed.{formed as well-formed};

use crate::bytes::byte_or;
use crate::make::{Make, NO_MOVE};
use generators::generator::Generator;
use model::next::Next;

// A generator knows only events below this.
const EVENTS: u8 = 64;

// The count of a table; it is not 0 where the table was read.
fn table_count(count: u8) -> u16
    ensures { result ≡ counted count }
{
    u16::from(count).max(1)
}

fn table_initial(count: u8, initial: u8) -> u16
    ensures { result ≡ table_initial (counted count) initial }
{
    if initial < count {
        u16::from(initial)
    } else {
        0
    }
}

fn table_knows(letters: &[u8], event: u8) -> bool
    ensures { result ≡ table_knows letters.now event }
{
    event < EVENTS && matches!(byte_or(letters, usize::from(event), 0) as char, '+')
}

fn table_marked(count: u8, marks: &[u8], state: u16) -> bool
    ensures { result ≡ table_marks (counted count) marks.now state }
{
    state < table_count(count) && matches!(byte_or(marks, usize::from(state), 0) as char, 'm')
}

// The target at the state's row and the event's column, 255 for no move: a rule of the project, it is what the file holds.
fn target(letters: &[u8], targets: &[u8], state: u16, event: u8) -> u8
    ensures { result ≡ table_target letters.now targets.now state event }
{
    // in 128 bits no product of a state and a width overflows; the check of the bound leaves a place that fits
    let place = u128::from(state) * letters.len() as u128 + u128::from(event);
    if place < targets.len() as u128 {
        targets[place as usize]
    } else {
        NO_MOVE
    }
}

fn table_next(count: u8, letters: &[u8], targets: &[u8], state: u16, event: u8) -> Next
    ensures { result ≡ table_next (counted count) letters.now targets.now state event }
{
    if !table_knows(letters, event) {
        return Next::Foreign;
    }
    let to = u16::from(target(letters, targets, state, event));
    if state < table_count(count) && to < table_count(count) {
        Next::To(to)
    } else {
        Next::Forbidden
    }
}

// Beside `table_knows`: each is its own definition, and one with the letters as a parameter would need both as cases.
fn counter_knows(letters: &[u8], event: u8) -> bool
    ensures { result ≡ counter_knows letters.now event }
{
    let letter = byte_or(letters, usize::from(event), 0);
    event < EVENTS && matches!(letter as char, 'u' | 'd' | 's')
}

fn counter_next(capacity: u8, letters: &[u8], state: u16, event: u8) -> Next
    ensures { result ≡ counter_next (counted (capacity + 1)) letters.now state event }
{
    if event >= EVENTS {
        return Next::Foreign;
    }
    let capacity = u16::from(capacity);
    match byte_or(letters, usize::from(event), 0) as char {
        'u' if state < capacity => Next::To(state + 1),
        'd' if 0 < state && state <= capacity => Next::To(state - 1),
        's' if state <= capacity => Next::To(state),
        'u' | 'd' | 's' => Next::Forbidden,
        _ => Next::Foreign,
    }
}

fn stock_knows(columns: [u8; 4], event: u8) -> bool
    ensures { result ≡ stock_knows columns event }
{
    event < EVENTS && columns.contains(&event)
}

// Columns 0 and 1 lead from 0 to 1, columns 2 and 3 back.
fn stock_next(columns: [u8; 4], state: u16, event: u8) -> Next
    ensures { result ≡ stock_next columns state event }
{
    if !stock_knows(columns, event) {
        return Next::Foreign;
    }
    match state {
        0 if columns[..2].contains(&event) => Next::To(1),
        1 if columns[2..].contains(&event) => Next::To(0),
        _ => Next::Forbidden,
    }
}

// A rule of the project: the makes are an enum, so each question is a match on it.
impl<'a> Generator for Make<'a> {
    ghost meaning = { λ m. gen_of (shape m) };

    ghost formed = { λ m. well-formed (shape m) };

    fn count(&self) -> u16 {
        match *self {
            Make::Table { count, .. } => table_count(count),
            Make::Counter { capacity, .. } => u16::from(capacity) + 1,
            Make::Stock { .. } => 2,
        }
    }

    fn initial(&self) -> u16 {
        match *self {
            Make::Table { count, initial, .. } => table_initial(count, initial),
            Make::Counter { .. } | Make::Stock { .. } => 0,
        }
    }

    fn knows(&self, event: u8) -> bool {
        match *self {
            Make::Table { letters, .. } => table_knows(letters, event),
            Make::Counter { letters, .. } => counter_knows(letters, event),
            Make::Stock { columns } => stock_knows(columns, event),
        }
    }

    fn marked(&self, state: u16) -> bool {
        match *self {
            Make::Table { count, marks, .. } => table_marked(count, marks, state),
            Make::Counter { .. } | Make::Stock { .. } => state == 0,
        }
    }

    fn next(&self, state: u16, event: u8) -> Next {
        match *self {
            Make::Table {
                count,
                letters,
                targets,
                ..
            } => table_next(count, letters, targets, state, event),
            Make::Counter { capacity, letters } => counter_next(capacity, letters, state, event),
            Make::Stock { columns } => stock_next(columns, state, event),
        }
    }
}
