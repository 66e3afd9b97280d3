// The verdict on the reading of a line file, and how a verdict is written.
ghost use Rattle.std.specs.Prelude.{◌≡◌};
ghost use Rattle.report.specs.Verdicts.{verdict_on};

use linefile::bank::FileBank;
use linefile::chart::read_chart;
use model::fault::Fault;
use std::fmt;

// The file can be read: it has so many low levels and events.
#[derive(Clone, Copy)]
pub struct Verdict {
    pub levels: u8,
    pub events: u8,
}

impl Verdict {
    // Reads the chart and every component.
    pub fn on(file: &[u8]) -> Result<Verdict, Fault>
        ensures { result ≡ verdict_on file.now }
    {
        let chart = read_chart(file)?;
        FileBank::read(file)?;
        Ok(Verdict {
            levels: chart.levels(),
            events: chart.events(),
        })
    }
}

impl fmt::Display for Verdict {
    fn fmt<W: fmt::Write>(&self, f: &mut fmt::Formatter<W>) -> fmt::Result {
        let Verdict { levels, events } = *self;
        write!(f, "read {levels} {events}")
    }
}

// What is reported of a file: a verdict of any kind, or the first fault.
#[derive(Clone, Copy)]
pub struct Report<V>(pub Result<V, Fault>);

impl<V: fmt::Display> fmt::Display for Report<V> {
    fn fmt<W: fmt::Write>(&self, f: &mut fmt::Formatter<W>) -> fmt::Result {
        match &self.0 {
            Ok(verdict) => write!(f, "{verdict}"),
            Err(fault) => write!(f, "fault {fault}"),
        }
    }
}
