// The work cells that are lent to the check and the guide.
use std::alloc::{AllocError, Global};

// A function that lends the three as one struct is not covered by the borrow checker, so each call takes them apart.
// Three slices of just the size that is asked for, with other contents at first, and one that is a cell short.
#[derive(Drop)]
pub struct Cells {
    pub first: Vec<u32>,
    pub second: Vec<u32>,
    pub third: Vec<u32>,
    pub short: Vec<u32>,
}

impl Cells {
    pub fn new(heap: Global, size: usize) -> Result<Cells, AllocError> {
        Ok(Cells {
            first: vec![in heap; 7u32; size]?,
            second: vec![in heap; u32::MAX; size]?,
            third: vec![in heap; 4096u32; size]?,
            short: vec![in heap; 1u32; size.saturating_sub(1)]?,
        })
    }
}
