// The chart of a line file.
ghost use Rattle.std.specs.Prelude.{◌≡◌};
ghost use Rattle.model.specs.Readings.{meant};
ghost use Rattle.charts.specs.Meanings.{chart_of};
ghost use Rattle.linefile.specs.File.{chart_reading};

use crate::contents::Contents;
use charts::chart::Chart;
use model::fault::Fault;

// Reads the header, the contents and the event body.
pub fn read_chart(file: &[u8]) -> Result<Chart, Fault>
    ensures { meant chart_of result ≡ chart_reading file.now }
{
    Contents::read(file)?.chart()
}
