// The work cells that are lent to the check and the guide.

// Three slices. They suffice where each is as long as the size of the largest walk.
#[derive(Drop)]
pub struct Cells<'a> {
    pub first: &'a mut [u32],
    pub second: &'a mut [u32],
    pub third: &'a mut [u32],
}
