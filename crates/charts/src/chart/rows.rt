// Reading the event rows.
ghost use Rattle.std.specs.Prelude.{◌≡◌, ◌*◌, ◌<◌, ◌≤◌, ◌&&◌, length};
ghost use Rattle.model.specs.Charts.{owns_request, owns_answer};
ghost use Rattle.model.specs.Readings.{meant};
ghost use Rattle.charts.specs.Meanings.{header_meaning, chart_of};
ghost use Rattle.charts.specs.RowSteps.{row_reading, Added, RowsRead};
ghost use Rattle.charts.specs.Rows.{completed, rows_reading, chart_reading};
ghost use Rattle.charts.specs.Sets.{chart_from, Agree};

use super::{Chart, Sets};
use crate::header::Header;
use model::fault::Fault;
use model::kind::Kind;
use model::set::EventSet;

// What one event row says.
#[derive(Clone, Copy)]
struct Row {
    kind: Kind,
    owner: u8,
    uncontrollable: bool,
}

impl Row {
    // Reads the three bytes of a row that begins at `place`.
    fn read(levels: u8, kind: u8, owner: u8, control: u8, place: u32) -> Result<Row, Fault>
        requires { place < 100000 }
        ensures { result ≡ row_reading levels kind owner control place }
    {
        let kind = Kind::try_from(kind).map_err(|_| Fault::Event { place })?;
        let owner_fits = match kind {
            Kind::High => owner == 0,
            _ => (1..=levels).contains(&owner),
        };
        if !owner_fits {
            return Err(Fault::Event { place: place + 1 });
        }
        let uncontrollable = match control as char {
            'c' => false,
            'u' => true,
            _ => return Err(Fault::Event { place: place + 2 }),
        };
        Ok(Row {
            kind,
            owner,
            uncontrollable,
        })
    }
}

impl Sets {
    const EMPTY: Sets = Sets {
        owned: [EventSet::EMPTY; 9],
        requests: EventSet::EMPTY,
        answers: EventSet::EMPTY,
        uncontrollable: EventSet::EMPTY,
    };

    // The sets with the event of a row too.
    fn with(mut self, event: u8, row: Row) -> Sets
        requires { (event < 64) × (row.owner ≤ 8) }
        ensures { Added self result event row }
    {
        let owned = &mut self.owned[usize::from(row.owner)];
        *owned = owned.with(event);
        match row.kind {
            Kind::Request => self.requests = self.requests.with(event),
            Kind::Answer => self.answers = self.answers.with(event),
            Kind::High | Kind::Low => {}
        }
        if row.uncontrollable {
            self.uncontrollable = self.uncontrollable.with(event);
        }
        self
    }

    // Reads the rows of all events.
    fn read(header: Header, rows: &[u8], origin: u16) -> Result<Sets, Fault>
        requires { length rows.now ≡ 3 * header.events }
        ensures { RowsRead header.levels header.events rows.now origin result }
    {
        let mut sets = Sets::EMPTY;
        // a rule of the project: rows are taken apart by slice patterns, so the rest is carried along
        let mut left = rows;
        for event in 0..header.events {
            let [kind, owner, control, rest @ ..] = left else {
                unreachable!()
            };
            let place = u32::from(origin) + 3 * u32::from(event);
            let row = Row::read(header.levels, *kind, *owner, *control, place)?;
            sets = sets.with(event, row);
            left = rest;
        }
        Ok(sets)
    }

    // Whether the level owns a request and an answer.
    fn owns_both(self, header: Header, level: u8) -> bool
        requires agree { Agree header.levels header.events self }
        requires within { level ≤ 8 }
        ensures { result ≡ (owns_request (chart_from header.levels header.events self) level && owns_answer (chart_from header.levels header.events self) level) }
    {
        let owned = self.owned[usize::from(level)];
        !owned.intersection(self.requests).is_empty()
            && !owned.intersection(self.answers).is_empty()
    }

    // Refuses the lowest low level that owns no request or no answer.
    fn complete(self, header: Header) -> Result<(), Fault>
        requires { Agree header.levels header.events self }
        ensures { meant (λ _. chart_from header.levels header.events self) result ≡ completed (chart_from header.levels header.events self) }
    {
        for level in 1..=header.levels {
            if !self.owns_both(header, level) {
                return Err(Fault::Level { level });
            }
        }
        Ok(())
    }
}

impl Chart {
    // Reads the event body `rows`, which begins at place `origin` of what was handed in.
    pub fn from_rows(header: Header, rows: &[u8], origin: u16) -> Result<Chart, Fault>
        ensures { meant chart_of result ≡ rows_reading (header_meaning header).levels (header_meaning header).events rows.now origin }
    {
        let size = 3 * usize::from(header.events);
        if rows.len() != size {
            // a usize has no From into u32; the lesser length is at most 192
            return Err(Fault::Contents {
                place: u32::from(origin) + rows.len().min(size) as u32,
            });
        }
        let sets = Sets::read(header, rows, origin)?;
        sets.complete(header)?;
        Ok(Chart { header, sets })
    }

    // Reads a chart in code: the header and then the event body.
    pub fn read(bytes: &[u8]) -> Result<Chart, Fault>
        ensures { meant chart_of result ≡ chart_reading bytes.now }
    {
        let header = Header::read(bytes)?;
        Chart::from_rows(header, &bytes[3..], 3)
    }
}
