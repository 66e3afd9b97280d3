// Pseudo-random numbers, the same at every run.
ghost use Rattle.std.specs.Prelude.{◌<◌};

#[derive(Clone, Copy)]
pub struct Chance {
    state: u64,
}

impl Chance {
    pub const START: Chance = Chance {
        state: 0x9e3779b97f4a7c15,
    };

    // The next number below n, and 0 where n is 0.
    pub fn below(&mut self, n: u8) -> u8
        ensures { 0 < n → result < n }
    {
        let mut x = self.state;
        x ^= x << 13;
        x ^= x >> 7;
        x ^= x << 17;
        self.state = x;
        match n {
            0 => 0,
            _ => (x % u64::from(n)) as u8,
        }
    }
}
