// The first three bytes of a line file and of a chart in code.
ghost use Rattle.std.specs.Prelude.{◌≤◌};

mod reading;

// The number of low levels and the number of events.
#[derive(Clone, Copy)]
pub struct Header {
    pub(crate) levels: u8,
    pub(crate) events: u8,
    ghost sizes: { (1 ≤ levels) × (levels ≤ 8) × (1 ≤ events) × (events ≤ 64) },
}
