// Reading a header, and its two numbers.
ghost use Rattle.std.specs.Prelude.{◌≡◌, ◌≤◌};
ghost use Rattle.model.specs.Components.{components};
ghost use Rattle.model.specs.Readings.{meant};
ghost use Rattle.charts.specs.Headers.{header_reading};
ghost use Rattle.charts.specs.Meanings.{header_meaning};

use super::Header;
use model::fault::Fault;

// A line file has at most this many bytes, so a length fits where it is cast to u32, for which a usize has no From.
const MAX_LENGTH: usize = 60000;

impl Header {
    // The number of low levels.
    pub fn levels(self) -> u8
        ensures value { result ≡ (header_meaning self).levels }
        ensures bounds { (1 ≤ result) × (result ≤ 8) }
    {
        self.levels
    }

    // The number of events.
    pub fn events(self) -> u8
        ensures value { result ≡ (header_meaning self).events }
        ensures bounds { (1 ≤ result) × (result ≤ 64) }
    {
        self.events
    }

    // How many components a line with this header has.
    pub fn components(self) -> u8
        ensures value { result ≡ components (header_meaning self).levels }
        ensures few { result ≤ 26 }
    {
        2 + 3 * self.levels
    }

    // Reads the first three bytes: 1, the number of low levels, the number of events.
    pub fn read(bytes: &[u8]) -> Result<Header, Fault>
        ensures { meant header_meaning result ≡ header_reading bytes.now }
    {
        if bytes.len() > MAX_LENGTH {
            return Err(Fault::Header {
                place: MAX_LENGTH as u32,
            });
        }
        let [version, levels, events, ..] = bytes else {
            return Err(Fault::Header {
                place: bytes.len() as u32,
            });
        };
        if *version != 1 {
            return Err(Fault::Header { place: 0 });
        }
        if !(1..=8).contains(levels) {
            return Err(Fault::Header { place: 1 });
        }
        if !(1..=64).contains(events) {
            return Err(Fault::Header { place: 2 });
        }
        Ok(Header {
            levels: *levels,
            events: *events,
        })
    }
}
