// Sets of events, one bit of a 64-bit word for each event.
ghost use Rattle.std.specs.Prelude.{◌≡◌, ℕ, IsTrue, ◌↔◌, false, not, ◌&&◌, ◌||◌, ◌==◌, nat_lt};
ghost use Rattle.model.specs.Sets.{member};

#[derive(Clone, Copy, PartialEq, Eq, Debug)]
pub struct EventSet {
    pub word: u64,
}

impl EventSet {
    pub const EMPTY: EventSet = EventSet { word: 0 };

    pub fn contains(self, event: u8) -> bool
        ensures { result ≡ member self.word event }
    {
        event < 64 && (self.word >> event) & 1 == 1
    }

    pub fn is_empty(self) -> bool
        ensures { IsTrue result ↔ ((e : ℕ) → member self.word e ≡ false) }
    {
        self.word == 0
    }

    // The set with the event too; an event from 64 up is in no set.
    pub fn with(self, event: u8) -> EventSet
        ensures { (k : ℕ) → member result.word k ≡ (member self.word k || (nat_lt k 64 && k == event)) }
    {
        if event < 64 {
            EventSet {
                word: self.word | (1 << event),
            }
        } else {
            self
        }
    }

    pub fn union(self, other: EventSet) -> EventSet
        ensures { (k : ℕ) → member result.word k ≡ (member self.word k || member other.word k) }
    {
        EventSet {
            word: self.word | other.word,
        }
    }

    pub fn intersection(self, other: EventSet) -> EventSet
        ensures { (k : ℕ) → member result.word k ≡ (member self.word k && member other.word k) }
    {
        EventSet {
            word: self.word & other.word,
        }
    }

    // The events of this set that the other lacks.
    pub fn difference(self, other: EventSet) -> EventSet
        ensures { (k : ℕ) → member result.word k ≡ (member self.word k && not (member other.word k)) }
    {
        EventSet {
            word: self.word & !other.word,
        }
    }
}
