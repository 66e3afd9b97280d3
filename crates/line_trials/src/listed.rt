// The list of possible events that a running line writes.
ghost use Rattle.std.specs.Prelude.{◌≡◌, ◌==◌, count_by};

use crate::difference::Difference;
use generators::bank::Bank;
use line::running::Running;
use model::fault::Fault;

// A byte that is no event.
const UNTOUCHED: u8 = 238;

// How many of the bytes are the event.
fn occurrences(bytes: &[u8], event: u8) -> usize
    ensures { result ≡ count_by (λ b. b == event) bytes.now }
{
    bytes.iter().filter(|byte| **byte == event).count()
}

// Whether the bytes from the place on are as they were.
fn untouched(bytes: &[u8], from: usize) -> bool {
    bytes.iter().skip(from).all(|byte| *byte == UNTOUCHED)
}

// Compares the list that the running line writes with the events that should be in it, and looks at the bytes that it leaves.
pub fn compare_possible<B: Bank>(listed: &[u8], running: &Running<B>) -> Result<(), Difference> {
    let mut out = [UNTOUCHED; 70];
    let count = running
        .possible(&mut out)
        .map_err(|_| Difference::Possible)?;
    let each_once = listed.iter().all(|event| occurrences(&out, *event) == 1);
    if count == listed.len() && each_once && untouched(&out, count) {
        Ok(())
    } else {
        Err(Difference::Possible)
    }
}

// A slice of 63 bytes is refused and left as it was.
pub fn refuse_short_slice<B: Bank>(running: &Running<B>) -> Result<(), Difference> {
    let mut out = [UNTOUCHED; 63];
    match running.possible(&mut out) {
        Err(Fault::PossibleSlice) if untouched(&out, 0) => Ok(()),
        _ => Err(Difference::ShortSlice),
    }
}
