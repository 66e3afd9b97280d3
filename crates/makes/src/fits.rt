// Which byte may stand at which place of a body.
ghost use Rattle.std.specs.Prelude.{◌≡◌, ◌<◌, ◌≤◌, slice_index};
ghost use Rattle.makes.specs.Bodies.{column_fits, table_fits, counter_fits, stock_fits, body_fits, body_size};
ghost use Rattle.makes.specs.Bodies.{departure as departs};

use crate::bytes::byte_or;
use crate::make::{NO_EVENT, NO_MOVE};

// The bytes of a body, over so many events.
#[derive(Clone, Copy)]
pub(crate) struct Body<'a> {
    pub(crate) bytes: &'a [u8],
    pub(crate) events: u8,
    // byte 1, how many states a table has: all its places go by it, so it is read once
    pub(crate) count: u8,
    ghost counted: { count ≡ slice_index bytes.now 1 },
}

impl<'a> Body<'a> {
    // The byte at the place, or 0 beyond the end.
    fn byte(&self, place: usize) -> u8
        ensures { result ≡ slice_index self.now.bytes.now place }
    {
        byte_or(self.bytes, place, 0)
    }

    // Whether the column is free of events, or has one that no earlier column has.
    fn column_fits(&self, place: usize) -> bool
        requires { 2 ≤ place }
        ensures { result ≡ column_fits self.now.events self.now.bytes.now place }
    {
        let event = self.byte(place);
        event == NO_EVENT
            || event < self.events && !(2..place).any(|earlier| self.byte(earlier) == event)
    }

    fn table_fits(&self, place: usize) -> bool
        ensures { result ≡ table_fits self.now.events self.now.bytes.now place }
    {
        let byte = self.byte(place);
        let count = self.count;
        let width = usize::from(self.events);
        let marks = 3 + width;
        let targets = marks + usize::from(count);
        match place {
            0 => matches!(byte as char, 'T'),
            1 => (1..=200).contains(&byte),
            2 => byte < count,
            _ if place < marks => matches!(byte as char, '+' | '-'),
            _ if place < targets => matches!(byte as char, 'm' | '-'),
            _ if place < targets + usize::from(count) * width => {
                // the column's letter is looked at for a state alone
                byte == NO_MOVE
                    || byte < count
                        && matches!(self.byte(3 + (place - targets) % width) as char, '+')
            }
            _ => false,
        }
    }

    fn counter_fits(&self, place: usize) -> bool
        ensures { result ≡ counter_fits self.now.events self.now.bytes.now place }
    {
        let byte = self.byte(place);
        match place {
            0 => matches!(byte as char, 'C'),
            1 => (1..=199).contains(&byte),
            _ => {
                place < 2 + usize::from(self.events)
                    && matches!(byte as char, '-' | 'u' | 'd' | 's')
            }
        }
    }

    fn stock_fits(&self, place: usize) -> bool
        ensures { result ≡ stock_fits self.now.events self.now.bytes.now place }
    {
        match place {
            0 => matches!(self.byte(0) as char, 'I'),
            1 => self.byte(1) == 0,
            _ => place < 6 && self.column_fits(place),
        }
    }

    // Whether the byte at the place is one that the body's make may have there.
    #[tactic(auto, unfolding(crate::specs::Bodies::body_fits))]
    fn fits(&self, place: usize) -> bool
        ensures { result ≡ body_fits self.now.events self.now.bytes.now place }
    {
        match self.byte(0) as char {
            'T' => self.table_fits(place),
            'C' => self.counter_fits(place),
            'I' => self.stock_fits(place),
            _ => false,
        }
    }

    // The first place where the body departs from its make, or its end.
    pub(crate) fn departure(&self) -> usize
        ensures { result ≡ departs self.now.events self.now.bytes.now }
    {
        let end = self.bytes.len();
        (0..end).find(|place| !self.fits(*place)).unwrap_or(end)
    }

    // How many bytes a body of its make has.
    pub(crate) fn size(&self) -> usize
        ensures value { result ≡ body_size self.now.events self.now.bytes.now }
        ensures small { result < 65539 }
    {
        let width = usize::from(self.events);
        let count = usize::from(self.count);
        match self.byte(0) as char {
            'T' => 3 + width + count + count * width,
            'C' => 2 + width,
            _ => 6,
        }
    }
}
