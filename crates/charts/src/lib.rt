// The chart of events and its readers.
#![tactic(auto)]

pub mod chart;
pub mod header;

#[cfg(test)]
mod tests {
    use crate::chart::Chart;
    use model::fault::Fault;
    use model::kind::Kind;
    use model::set::EventSet;
    use std::test::Fail;

    // One level and four events: H, a request, an answer and an L event, the last two uncontrollable.
    const SMALL: [u8; 15] = [
        1, 1, 4, b'H', 0, b'c', b'R', 1, b'c', b'A', 1, b'u', b'L', 1, b'u',
    ];

    #[test]
    fn small_line(rt: HostRuntime) -> Result<(), Fail> {
        let chart = Chart::read(&SMALL)?;
        assert_eq!(rt; chart.kind(1), Some(Kind::Request));
        assert_eq!(rt; chart.kind(4), None);
        assert_eq!(rt; chart.owner(3), Some(1));
        assert!(rt; chart.uncontrollable(2));
        assert_eq!(rt; chart.high_alphabet(), EventSet { word: 0b0111 });
        assert_eq!(rt; chart.level_alphabet(1), EventSet { word: 0b1110 });
        assert_eq!(rt; chart.interface_alphabet(1), EventSet { word: 0b0110 });
        assert_eq!(rt; chart.low_events(1), EventSet { word: 0b1000 });
        Ok(())
    }

    // The fault of the small line's chart with one byte changed.
    fn fault_with(place: usize, byte: u8) -> Option<Fault> {
        let mut bytes = SMALL;
        if place < 15 {
            bytes[place] = byte;
        }
        Chart::read(&bytes).err()
    }

    #[test]
    fn refusals(rt: HostRuntime) {
        assert_eq!(rt; fault_with(1, 9), Some(Fault::Header { place: 1 }));
        assert_eq!(rt; fault_with(2, 5), Some(Fault::Contents { place: 15 }));
        assert_eq!(rt; fault_with(2, 3), Some(Fault::Contents { place: 12 }));
        assert_eq!(rt; fault_with(7, 0), Some(Fault::Event { place: 7 }));
        assert_eq!(rt; fault_with(6, b'L'), Some(Fault::Level { level: 1 }));
    }
}
