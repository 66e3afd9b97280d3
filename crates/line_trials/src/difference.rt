// Where a running line and the joint line part.
use std::alloc::{AllocError, AllocFailed};
use std::fmt;

#[derive(Clone, Copy)]
pub enum Difference {
    // an offer was accepted or refused otherwise
    Offer { event: u8 },
    // the list of possible events has others, or bytes past it were written
    Possible,
    // a slice that is too short was not refused, or written
    ShortSlice,
    // the states are others
    Look,
    // the guide took cells that are too few
    ShortCells,
    // the guide said home too early, gave no event, or went on past the bound
    Guide,
    // there was no memory
    Memory,
}

impl fmt::Display for Difference {
    fn fmt<W: fmt::Write>(&self, f: &mut fmt::Formatter<W>) -> fmt::Result {
        match *self {
            Difference::Offer { event } => write!(f, "the offer of {event} differs"),
            Difference::Possible => write!(f, "the possible events differ"),
            Difference::ShortSlice => write!(f, "a short slice is taken"),
            Difference::Look => write!(f, "the states differ"),
            Difference::ShortCells => write!(f, "the guide takes short cells"),
            Difference::Guide => write!(f, "the guide leads astray"),
            Difference::Memory => write!(f, "no memory"),
        }
    }
}

impl<T: Drop> From<AllocFailed<T>> for Difference {
    fn from(_refused: AllocFailed<T>) -> Difference {
        Difference::Memory
    }
}

impl From<AllocError> for Difference {
    fn from(_refused: AllocError) -> Difference {
        Difference::Memory
    }
}
