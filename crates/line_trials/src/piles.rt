// Lines whose components are piled in code.
use crate::cycle::Cycle;
use crate::trial::try_line;
use anyhow::Context;
use charts::chart::Chart;
use generators::bank::Bank;
use generators::generator::Generator;
use generators::pile::{Empty, Pile};
use generators::selfloop::Selfloop;
use makes::make::Make;
use model::set::EventSet;
use walks::line::Line;

// One low level: event 0 is a high event, 1 a request, 2 an answer, 3 a low event.
const SMALL: &[u8] = b"\x01\x01\x04H\x00cR\x01cA\x01uL\x01u";

// Two low levels: event 0 is a high event, 1 and 2 request and answer of level 1, 3 and 4 those of level 2, 5 a low event of level 1, 6 and 7 are
// low events of level 2.
const STORES: &[u8] = b"\x01\x02\x08H\x00cR\x01cA\x01uR\x02cA\x02uL\x01uL\x02cL\x02c";

// A table of one marked state that knows none of four events.
const ONE_STATE: &[u8] = b"T\x01\x00----m\xff\xff\xff\xff";

// A stock that knows no event.
const IDLE: &[u8] = b"I\x00\xff\xff\xff\xff";

const LEVEL_ONE: &[u8] = b"I\x00\x01\xff\x02\xff";

const LEVEL_TWO: &[u8] = b"I\x00\x03\xff\x04\xff";

// Two loads may wait for the request of level 1.
const LOADS: &[u8] = b"C\x02ud------";

// Event 6 puts by, up to three parts, and event 7 takes away.
const PARTS: &[u8] = b"C\x03------ud";

// A component before those of `rest`.
fn before<G: Generator, R: Bank>(first: G, rest: R) -> Pile<G, R> {
    Pile { first, rest }
}

// The plant and the supervisor of a level, before the components of `rest`.
fn level<P: Generator, S: Generator, R: Bank>(
    plant: P,
    supervisor: S,
    rest: R,
) -> Pile<P, Pile<S, R>> {
    before(plant, before(supervisor, rest))
}

fn layer<G: Generator>(inner: G, events: EventSet) -> Selfloop<G> {
    Selfloop { inner, events }
}

fn round(first: u8, second: u8, third: u8) -> Cycle {
    Cycle {
        first,
        second,
        third,
    }
}

// The high level of the small line, over any low level.
fn try_small<R: Bank + Drop>(
    rt: &HostRuntime,
    name: &str,
    chart: Chart,
    rest: R,
) -> anyhow::Result<()> {
    let one_state = Make::read(ONE_STATE, 4).ok().context("no table")?;
    let high = chart.high_alphabet();
    let bank = level(layer(round(0, 1, 2), high), layer(one_state, high), rest);
    try_line(rt, name, Line { chart, bank })
}

// The small line, and the same with a component too few and one too many.
pub fn try_small_lines(rt: &HostRuntime) -> anyhow::Result<()> {
    let chart = Chart::read(SMALL).ok().context("no chart")?;
    let one_state = Make::read(ONE_STATE, 4).ok().context("no table")?;
    let interface = Make::read(LEVEL_ONE, 4).ok().context("no stock")?;
    let low = chart.level_alphabet(1);
    let plant = round(1, 3, 2);
    let whole = level(
        layer(plant, low),
        layer(one_state, low),
        before(interface, Empty),
    );
    try_small(rt, "piled-small", chart, whole)?;
    let short = level(layer(plant, low), layer(one_state, low), Empty);
    try_small(rt, "piled-short", chart, short)?;
    let spare = before(interface, before(interface, Empty));
    let long = level(layer(plant, low), layer(one_state, low), spare);
    try_small(rt, "piled-long", chart, long)
}

// A line of two levels: loads go through level 1 to level 2, which puts parts by. The high level over any low levels.
fn try_stores_over<R: Bank + Drop>(rt: &HostRuntime, chart: Chart, rest: R) -> anyhow::Result<()> {
    let loads = Make::read(LOADS, 8).ok().context("no counter")?;
    let high = chart.high_alphabet();
    let bank = level(layer(loads, high), layer(round(1, 2, 3), high), rest);
    try_line(rt, "piled-stores", Line { chart, bank })
}

// Level 1 over any level 2.
fn try_stores_beside<R: Bank + Drop>(
    rt: &HostRuntime,
    chart: Chart,
    rest: R,
) -> anyhow::Result<()> {
    let idle = Make::read(IDLE, 8).ok().context("no stock")?;
    let interface = Make::read(LEVEL_ONE, 8).ok().context("no stock")?;
    let low = chart.level_alphabet(1);
    let levels = level(
        layer(round(1, 5, 2), low),
        layer(idle, low),
        before(interface, rest),
    );
    try_stores_over(rt, chart, levels)
}

pub fn try_stores(rt: &HostRuntime) -> anyhow::Result<()> {
    let chart = Chart::read(STORES).ok().context("no chart")?;
    let parts = Make::read(PARTS, 8).ok().context("no counter")?;
    let interface = Make::read(LEVEL_TWO, 8).ok().context("no stock")?;
    let low = chart.level_alphabet(2);
    let level_two = level(
        layer(round(3, 6, 4), low),
        layer(parts, low),
        before(interface, Empty),
    );
    try_stores_beside(rt, chart, level_two)
}
