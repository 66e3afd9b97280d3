// What a chart answers.
ghost use Rattle.std.specs.Prelude.{◌≡◌, ℕ, ◌≤◌};
ghost use Rattle.model.specs.Charts.{WellCharted, is_request, is_answer, in_high, in_level, in_interface};
ghost use Rattle.model.specs.Components.{components};
ghost use Rattle.model.specs.Sets.{member};
ghost use Rattle.charts.specs.Alphabets.{in_requests, in_answers, in_low, kind_at, owner_at};
ghost use Rattle.charts.specs.Meanings.{chart_of};

use super::Chart;
use model::kind::Kind;
use model::set::EventSet;

impl Chart {
    // The number of low levels.
    pub fn levels(&self) -> u8
        ensures value { result ≡ (chart_of self.now).levels }
        ensures rules { WellCharted (chart_of self.now) }
    {
        self.header.levels
    }

    // The number of events.
    pub fn events(&self) -> u8
        ensures value { result ≡ (chart_of self.now).events }
        ensures rules { WellCharted (chart_of self.now) }
    {
        self.header.events
    }

    // How many components a line with this chart has.
    pub fn components(&self) -> u8
        ensures value { result ≡ components (chart_of self.now).levels }
        ensures few { result ≤ 26 }
    {
        self.header.components()
    }

    pub fn kind(&self, event: u8) -> Option<Kind>
        ensures { result ≡ kind_at (chart_of self.now) event }
    {
        if event >= self.header.events {
            None
        } else if self.sets.owned[0].contains(event) {
            Some(Kind::High)
        } else if self.sets.requests.contains(event) {
            Some(Kind::Request)
        } else if self.sets.answers.contains(event) {
            Some(Kind::Answer)
        } else {
            Some(Kind::Low)
        }
    }

    #[tactic(auto, using(crate::proofs::Rules::beyond))]
    pub fn is_request(&self, event: u8) -> bool
        ensures { result ≡ is_request ((chart_of self.now).kind event) }
    {
        self.kind(event) == Some(Kind::Request)
    }

    #[tactic(auto, using(crate::proofs::Rules::beyond))]
    pub fn is_answer(&self, event: u8) -> bool
        ensures { result ≡ is_answer ((chart_of self.now).kind event) }
    {
        self.kind(event) == Some(Kind::Answer)
    }

    // The level that owns the event; 0 is the high one.
    pub fn owner(&self, event: u8) -> Option<u8>
        ensures { result ≡ owner_at (chart_of self.now) event }
    {
        (0..=self.header.levels).find(|level| self.level_alphabet(*level).contains(event))
    }

    pub fn uncontrollable(&self, event: u8) -> bool
        ensures { result ≡ (chart_of self.now).uncontrollable event }
    {
        self.uncontrollable_events().contains(event)
    }

    pub fn uncontrollable_events(&self) -> EventSet
        ensures { (e : ℕ) → member result.word e ≡ (chart_of self.now).uncontrollable e }
    {
        self.sets.uncontrollable
    }

    // All H, R and A events.
    pub fn high_alphabet(&self) -> EventSet
        ensures { (e : ℕ) → member result.word e ≡ in_high (chart_of self.now) e }
    {
        let sets = self.sets;
        sets.owned[0].union(sets.requests).union(sets.answers)
    }

    // The events that the level owns: those of level 0 are the H events, and a level beyond the last has none.
    pub fn level_alphabet(&self, level: u8) -> EventSet
        ensures { (e : ℕ) → member result.word e ≡ in_level (chart_of self.now) level e }
    {
        let owned = self.sets.owned.get(usize::from(level));
        owned.copied().unwrap_or(EventSet::EMPTY)
    }

    // The requests and answers of the level.
    pub fn interface_alphabet(&self, level: u8) -> EventSet
        ensures { (e : ℕ) → member result.word e ≡ in_interface (chart_of self.now) level e }
    {
        self.requests(level).union(self.answers(level))
    }

    pub fn requests(&self, level: u8) -> EventSet
        ensures { (e : ℕ) → member result.word e ≡ in_requests (chart_of self.now) level e }
    {
        self.level_alphabet(level).intersection(self.sets.requests)
    }

    pub fn answers(&self, level: u8) -> EventSet
        ensures { (e : ℕ) → member result.word e ≡ in_answers (chart_of self.now) level e }
    {
        self.level_alphabet(level).intersection(self.sets.answers)
    }

    // The L events of the level.
    pub fn low_events(&self, level: u8) -> EventSet
        ensures { (e : ℕ) → member result.word e ≡ in_low (chart_of self.now) level e }
    {
        self.level_alphabet(level).difference(self.high_alphabet())
    }
}
