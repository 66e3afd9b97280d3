// What the guide answers, and how many of its offers lead home at most.
ghost use Rattle.std.specs.Prelude.{◌≡◌};
ghost use Rattle.hisc.specs.Sizes.{bound_of};

// An answer has no event in two ways, so it is no Option.
#[derive(Clone, Copy, PartialEq, Eq, Debug)]
pub enum Guidance {
    // every component is marked
    Home,
    // the rules give no event
    NoEvent,
    // the event to offer next
    Event(u8),
}

// The most offers that lead home, with so many low levels, states of the high walk, and states of the largest low walk.
pub fn most_offers(levels: u8, high: u16, low: u16) -> u64
    ensures { result ≡ bound_of levels high low }
{
    let n = u64::from(levels);
    let high_left = u64::from(high).saturating_sub(1);
    let low = u64::from(low);
    ((n + 1) * high_left + n) * low + n * low.saturating_sub(1)
}
