// Queues of calls.
use hisc::guide::Guidance;
use walks::row::Row;

// A call to a running line.
#[derive(Clone, Copy, PartialEq, Eq, Debug)]
pub enum Call {
    Offer(u8),
    Guide,
    Possible,
    Look,
    Restart,
}

// What a call that is not refused is answered.
#[derive(Clone, Copy)]
pub enum Reply {
    Accepted,
    Guided(Guidance),
    // so many events stand at the front of the slice
    Listed(usize),
    Shown(Row),
    Restarted,
}
