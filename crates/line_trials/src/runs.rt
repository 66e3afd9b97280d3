// Trips through a running line: each wanders by offers, accepted and refused, and then goes home by the guide. Every reply is compared with what the
// bank says of the joint line.
use crate::cells::Cells;
use crate::chance::Chance;
use crate::difference::Difference;
use crate::joint::Joint;
use crate::listed::{compare_possible, refuse_short_slice};
use generators::bank::Bank;
use hisc::guide::Guidance;
use line::cells::Cells as Lent;
use line::running::Running;
use model::fault::{Fault, Layer};
use std::alloc::{AllocError, Global};
use std::fmt;

// How many trips there are, and how many offers each wanders by at most.
pub const TRIPS: u8 = 24;

const LONGEST: u8 = 200;

// What the trips come to.
#[derive(Clone, Copy)]
pub struct Tally {
    pub accepted: u64,
    pub refused: u64,
    // the most offers that led home, and the most that may
    pub longest: u64,
    pub bound: u64,
    // a number made of all events that the guide named
    pub ways: u32,
}

impl fmt::Display for Tally {
    fn fmt<W: fmt::Write>(&self, f: &mut fmt::Formatter<W>) -> fmt::Result {
        let Tally {
            accepted,
            refused,
            longest,
            bound,
            ways,
        } = *self;
        write!(f, "{TRIPS} trips, {accepted} accepted, {refused} refused, ")?;
        write!(f, "longest way home {longest} of {bound}, ways {ways}")
    }
}

// The events that led home.
#[derive(Drop)]
pub struct Way {
    events: Vec<u8>,
}

impl fmt::Display for Way {
    fn fmt<W: fmt::Write>(&self, f: &mut fmt::Formatter<W>) -> fmt::Result {
        for event in self.events.iter() {
            write!(f, " {event}")?;
        }
        Ok(())
    }
}

// A running line with its cells, the joint state in which it should be, and what is kept from trip to trip.
#[derive(Drop)]
pub struct Tour<B: Bank> {
    pub running: Running<B>,
    cells: Cells,
    heap: Global,
    joint: Joint,
    chance: Chance,
    pub tally: Tally,
    // that of the last trip, where it went by single offers
    pub way: Way,
}

impl<B: Bank> Tour<B> {
    pub fn new(heap: Global, running: Running<B>, cells: Cells, bound: u64) -> Tour<B> {
        let joint = Joint::initial(running.bank());
        Tour {
            running,
            cells,
            heap,
            joint,
            chance: Chance::START,
            tally: Tally {
                accepted: 0,
                refused: 0,
                longest: 0,
                bound,
                ways: 0,
            },
            way: Way {
                events: Vec::new(heap),
            },
        }
    }

    fn events(&self) -> u8 {
        self.running.chart().events()
    }

    // The events that should be accepted, in their order.
    fn listed(&self) -> Result<Vec<u8>, AllocError> {
        let bank = self.running.bank();
        (0..self.events())
            .filter(|event| self.joint.after(bank, *event).is_ok())
            .collect(self.heap)
    }

    // Whether all components should be marked.
    fn rests(&self) -> bool {
        self.joint.rests(self.running.bank())
    }

    // An event to offer: mostly one that is accepted, else any number, also one past the chart's.
    fn pick(&mut self, listed: &[u8]) -> u8 {
        let any = self.chance.below(4) == 0;
        if any || listed.is_empty() {
            let events = self.events();
            self.chance.below(events.saturating_add(3))
        } else {
            let many = u8::try_from(listed.len()).unwrap_or(u8::MAX);
            let place = self.chance.below(many);
            listed.get(usize::from(place)).copied().unwrap_or(0)
        }
    }

    // What the joint state says of an offer.
    fn answer(&self, event: u8) -> Result<Joint, Fault> {
        if event >= self.events() {
            return Err(Fault::EventNumber { event });
        }
        self.joint
            .after(self.running.bank(), event)
            .map_err(|component| Fault::Refused { component, event })
    }

    // Makes the offer, and compares the reply and the states. Tells whether it was accepted.
    fn offer(&mut self, event: u8) -> Result<bool, Difference> {
        let expected = self.answer(event);
        match (self.running.offer(event), expected) {
            (Ok(()), Ok(next)) => {
                self.joint = next;
                self.tally.accepted = self.tally.accepted.saturating_add(1);
            }
            (Err(fault), Err(other)) if fault == other => {
                self.tally.refused = self.tally.refused.saturating_add(1);
            }
            _ => return Err(Difference::Offer { event }),
        }
        self.look()?;
        Ok(expected.is_ok())
    }

    fn look(&self) -> Result<(), Difference> {
        if self.running.look().states == self.joint.states {
            Ok(())
        } else {
            Err(Difference::Look)
        }
    }

    // Wanders by so many offers.
    fn wander(&mut self) -> Result<(), Difference> {
        for _ in 0..self.chance.below(LONGEST) {
            let listed = self.listed()?;
            let event = self.pick(&listed);
            self.offer(event)?;
        }
        Ok(())
    }

    // Offers an event that the guide named; it must be accepted.
    fn take(&mut self, event: u8) -> Result<(), Difference> {
        let number = u32::from(event) + 1;
        self.tally.ways = self.tally.ways.wrapping_mul(31).wrapping_add(number);
        if self.offer(event)? {
            Ok(())
        } else {
            Err(Difference::Guide)
        }
    }

    // Asks the guide and offers what it names, until it says home, which it must say just where all components are marked.
    fn follow(&mut self) -> Result<(), Difference> {
        for _ in 0..=self.tally.bound {
            let rests = self.rests();
            match ask(&self.running, &mut self.cells) {
                Ok(Guidance::Event(event)) if !rests => {
                    self.way.events.push(event)?;
                    self.take(event)?;
                }
                Ok(Guidance::Home) if rests => return Ok(()),
                _ => return Err(Difference::Guide),
            }
        }
        Err(Difference::Guide)
    }

    // The same by one call.
    fn hurry(&mut self) -> Result<(), Difference> {
        let offers = go_home(&mut self.running, &mut self.cells)?;
        let states = self.running.look().states;
        self.joint = Joint { states };
        self.tally.accepted = self.tally.accepted.saturating_add(offers);
        Ok(())
    }

    // Goes home, by one call on every fourth trip, and looks whether all components are marked then.
    fn home(&mut self, trip: u8) -> Result<(), Difference> {
        let before = self.tally.accepted;
        if trip % 4 == 3 {
            self.hurry()?;
        } else {
            self.follow()?;
        }
        let offers = self.tally.accepted.saturating_sub(before);
        self.tally.longest = self.tally.longest.max(offers);
        if offers <= self.tally.bound && self.rests() {
            Ok(())
        } else {
            Err(Difference::Guide)
        }
    }

    // Begins again with all initial states.
    fn restart(&mut self) -> Result<(), Difference> {
        self.running.restart();
        self.joint = Joint::initial(self.running.bank());
        self.look()
    }

    // Wanders, on every third trip begins again and wanders once more, asks what is refused or changes nothing, and goes home.
    pub fn trip(&mut self, trip: u8) -> Result<(), Difference> {
        self.way.events.clear();
        self.wander()?;
        if trip % 3 == 2 {
            self.restart()?;
            self.wander()?;
        }
        self.offer(255)?;
        compare_possible(&self.listed()?, &self.running)?;
        refuse_short_slice(&self.running)?;
        refuse_short_cells(&self.running, &mut self.cells, trip)?;
        self.look()?;
        self.home(trip)
    }
}

// What the guide answers with cells enough.
fn ask<B: Bank>(running: &Running<B>, cells: &mut Cells) -> Result<Guidance, Fault> {
    let Cells {
        first,
        second,
        third,
        ..
    } = cells;
    running.guide(&mut Lent {
        first,
        second,
        third,
    })
}

// Goes home by one call. Tells how many offers that took.
fn go_home<B: Bank>(running: &mut Running<B>, cells: &mut Cells) -> Result<u64, Difference> {
    let Cells {
        first,
        second,
        third,
        ..
    } = cells;
    running
        .go_home(&mut Lent {
            first,
            second,
            third,
        })
        .map_err(|_| Difference::Guide)
}

// The guide refuses a slice that is a cell short, whichever of the three it is.
fn refuse_short_cells<B: Bank>(
    running: &Running<B>,
    cells: &mut Cells,
    trip: u8,
) -> Result<(), Difference> {
    let Cells {
        first,
        second,
        third,
        short,
    } = cells;
    let reply = match trip % 3 {
        0 => running.guide(&mut Lent {
            first: short,
            second,
            third,
        }),
        1 => running.guide(&mut Lent {
            first,
            second: short,
            third,
        }),
        _ => running.guide(&mut Lent {
            first,
            second,
            third: short,
        }),
    };
    match reply {
        Err(Fault::WorkCells { layer: Layer::Run }) => Ok(()),
        _ => Err(Difference::ShortCells),
    }
}
