// The bodies of a small line with four events.
use crate::make::Make;
use generators::generator::Generator;
use model::next::Next;
use std::test::Fail;

// Three states in a ring by the events 0, 1 and 2.
const RING: &[u8] = b"T\x03\x00+++-m--\x01\xff\xff\xff\xff\x02\xff\xff\xff\xff\x00\xff";

#[test]
fn a_ring_moves_by_its_targets(rt: HostRuntime) -> Result<(), Fail> {
    let ring = Make::read(RING, 4)?;
    assert_eq!(rt; ring.count(), 3);
    assert!(rt; ring.marked(0) && !ring.marked(1) && !ring.marked(3));
    assert_eq!(rt; ring.next(1, 1), Next::To(2));
    assert_eq!(rt; ring.next(1, 2), Next::Forbidden);
    assert_eq!(rt; ring.next(3, 1), Next::Forbidden);
    assert_eq!(rt; ring.next(1, 3), Next::Foreign);
    Ok(())
}

#[test]
fn a_table_may_know_nothing(rt: HostRuntime) -> Result<(), Fail> {
    let still = Make::read(b"T\x01\x00----m\xff\xff\xff\xff", 4)?;
    assert_eq!(rt; still.initial(), 0);
    assert!(rt; still.marked(0) && !still.knows(0));
    Ok(())
}

#[test]
fn a_stock_goes_forth_and_back(rt: HostRuntime) -> Result<(), Fail> {
    let stock = Make::read(b"I\x00\x01\xff\x02\xff", 4)?;
    assert_eq!(rt; stock.next(0, 1), Next::To(1));
    assert_eq!(rt; stock.next(0, 2), Next::Forbidden);
    assert_eq!(rt; stock.next(1, 2), Next::To(0));
    assert!(rt; !stock.knows(255));
    Ok(())
}

#[test]
fn a_counter_stops_at_its_ends(rt: HostRuntime) -> Result<(), Fail> {
    let counter = Make::read(b"C\x02uds-", 4)?;
    assert_eq!(rt; counter.next(1, 0), Next::To(2));
    assert_eq!(rt; counter.next(2, 0), Next::Forbidden);
    assert_eq!(rt; counter.next(0, 1), Next::Forbidden);
    assert_eq!(rt; counter.next(2, 2), Next::To(2));
    Ok(())
}

fn place(body: &[u8]) -> u32 {
    Make::read_at(body, 4, Some(2), 73)
        .err()
        .map_or(0, |fault| fault.fields().place)
}

#[test]
fn a_fault_names_the_first_place(rt: HostRuntime) {
    assert_eq!(rt; place(b""), 73);
    assert_eq!(rt; place(b"X\x00"), 73);
    assert_eq!(rt; place(b"T\x00\x00"), 74);
    assert_eq!(rt; place(b"T\x03"), 75);
    assert_eq!(rt; place(b"I\x00\x01\xff\x01\xff"), 77);
    assert_eq!(rt; place(b"C\x02uds-s"), 79);
}
