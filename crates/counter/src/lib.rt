//! A count up to 2^63 - 1: of the entries that were read of a sheet, and of the spans that were weighed.
#![tactic(auto)]

ghost use Rattle.std.specs.Prelude.{◌≡◌, ◌-◌, ◌^◌, ◌≤◌, min};
ghost use Rattle.counter.specs.Counters.{raised};

const GREATEST_COUNT: u64 = (1 << 63) - 1;

/// How often something was done, up to 2^63 - 1.
#[derive(Clone, Copy, Drop)]
pub struct Counter {
    told: u64,
    ghost capped: { told ≤ 2 ^ 63 - 1 },
}

impl Counter {
    /// Nothing done yet.
    pub fn new() -> Counter
        ensures value { result.told ≡ 0 }
    {
        Counter { told: 0 }
    }

    /// Done so often already; as often as can be told, where that is more.
    // not a From: a greater number comes out smaller
    pub fn from_told(told: u64) -> Counter
        ensures value { result.told ≡ min told (2 ^ 63 - 1) }
    {
        Counter {
            told: told.min(GREATEST_COUNT),
        }
    }

    /// How often it was done.
    pub fn told(&self) -> u64
        ensures value { result ≡ self.now.told }
    {
        self.told
    }

    /// One more, unless the count is at its greatest.
    pub fn raise(&mut self)
        ensures after { self.new.told ≡ raised self.old.told }
    {
        self.told = (self.told + 1).min(GREATEST_COUNT);
    }
}
