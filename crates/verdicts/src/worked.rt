// A small line file and damaged copies of it: what is to be told of them follows from the definitions.
ghost use Rattle.std.specs.Prelude.{◌≡◌};
ghost use Rattle.verdicts.specs.Worked.{WorkedEntries};

use hisc::guide::most_offers;

// The most offers that lead home in the small line, with one low level, 6 states of the high walk and 6 of the low one.
pub fn worked_entries() -> u64
    ensures entries { WorkedEntries }
    ensures bound { result ≡ 71 }
{
    most_offers(1, 6, 6)
}
