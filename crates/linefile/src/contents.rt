// Where the bodies of a line file stand.
ghost use Rattle.std.specs.Prelude.{◌≡◌, ℕ, ◌+◌, ◌*◌, ◌<◌, ◌≤◌, [], length, take, drop, IfOk, Ok, ◌==◌, nat_le};
ghost use Rattle.model.specs.Readings.{meant, provided, in_turn};
ghost use Rattle.model.specs.declared.fault.Fault.TheVariants.{Contents as ContentsFault};
ghost use Rattle.charts.specs.Meanings.{header_meaning, chart_of};
ghost use Rattle.linefile.specs.File.{opened, event_reading};
ghost use Rattle.linefile.specs.Layout.{rows, contents_end, body_start, body_of, row_reading, texts, Found};

use charts::chart::Chart;
use charts::header::Header;
use model::fault::Fault;

// A line file whose contents are right, its sizes, and the bodies that its rows name: row 0 is the event body, row c + 1 component c. At most 27,
// in fixed memory, since the library has no heap.
#[derive(Clone, Copy)]
pub(crate) struct Contents<'a> {
    pub(crate) file: &'a [u8],
    pub(crate) header: Header,
    pub(crate) bodies: [&'a [u8]; 27],
    ghost small: { length file.now ≤ 60000 },
    ghost right: { in_turn (row_reading header.levels file.now) (rows header.levels) ≡ Ok tt },
    ghost found: { Found header.levels file.now (texts bodies) },
}

// The bodies as the rows lay them, and where the last one ends.
#[derive(Clone, Copy)]
struct Laid<'a> {
    bodies: [&'a [u8]; 27],
    end: usize,
}

// Where the contents of a file end, and its first body begins.
pub(crate) fn contents_end(header: Header) -> usize
    ensures { result ≡ contents_end header.levels }
{
    15 + 12 * usize::from(header.levels())
}

// The number that two bytes hold, the high byte first.
fn number(high: u8, low: u8) -> usize
    ensures { result ≡ 256 * high + low }
{
    usize::from(u16::from_be_bytes([high, low]))
}

// The body of a row that stands at `place`: it has to begin at `at`.
fn body_at<'a>(
    file: &'a [u8],
    at: usize,
    start: usize,
    size: usize,
    place: u32,
) -> Result<&'a [u8], Fault>
    requires { (at ≤ length file.now) × (place < 1000) }
    ensures { meant (λ b. b.now) result ≡ provided (start == at) (ContentsFault place) (provided (nat_le (at + size) (length file.now)) (ContentsFault (place + 2)) (Ok (take size (drop at file.now)))) }
{
    if start != at {
        return Err(Fault::Contents { place });
    }
    if file.len() - at < size {
        return Err(Fault::Contents { place: place + 2 });
    }
    Ok(&file[at..at + size])
}

impl<'a> Laid<'a> {
    // Lays the bodies of all rows, one behind the other.
    fn read(file: &'a [u8], header: Header) -> Result<Laid<'a>, Fault>
        requires { contents_end header.levels ≤ length file.now }
        ensures told { meant (λ _. tt) result ≡ in_turn (row_reading header.levels file.now) (rows header.levels) }
        ensures laid { IfOk result (λ c. Found header.levels file.now (texts c.bodies) × (c.end ≡ body_start header.levels file.now (rows header.levels)) × (c.end ≤ length file.now) × (length c.bodies ≡ 27)) }
    {
        let mut bodies: [&'a [u8]; 27] = [&[]; 27];
        let mut end = contents_end(header);
        let mut left = &file[3..end];
        // a rule of the project: rows are taken apart by slice patterns, so the rest is carried along and the row counted
        let mut row = 0usize;
        while let [start_high, start_low, length_high, length_low, rest @ ..] = left {
            let start = number(*start_high, *start_low);
            let size = number(*length_high, *length_low);
            let body = body_at(file, end, start, size, 3 + 4 * row as u32)?;
            bodies[row] = body;
            end += size;
            row += 1;
            left = rest;
        }
        Ok(Laid { bodies, end })
    }
}

// Places and lengths are at most 60,000, so they fit where they are cast: a usize has no From into smaller types.
impl<'a> Contents<'a> {
    // Reads the header and the contents rows.
    pub(crate) fn read(file: &'a [u8]) -> Result<Contents<'a>, Fault>
        ensures told { meant (λ c. header_meaning c.header) result ≡ opened file.now }
        ensures same { IfOk result (λ c. c.file.now ≡ file.now) }
    {
        let header = Header::read(file)?;
        if file.len() < contents_end(header) {
            return Err(Fault::Contents {
                place: file.len() as u32,
            });
        }
        let Laid { bodies, end } = Laid::read(file, header)?;
        if bodies[0].len() != 3 * usize::from(header.events()) {
            return Err(Fault::Contents { place: 5 });
        }
        if end < file.len() {
            return Err(Fault::Contents { place: end as u32 });
        }
        Ok(Contents {
            file,
            header,
            bodies,
        })
    }

    // Reads the event body.
    pub(crate) fn chart(&self) -> Result<Chart, Fault>
        ensures { meant chart_of result ≡ event_reading (header_meaning self.now.header) self.now.file.now }
    {
        let end = contents_end(self.header) as u16;
        Chart::from_rows(self.header, self.bodies[0], end)
    }
}
