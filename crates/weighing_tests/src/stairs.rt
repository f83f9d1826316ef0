//! A weighing that the crate of weighings does not know: costs of a span by its length, from a table.
ghost use Rattle.std.specs.Prelude.{◌≡◌, ◌-◌, ◌^◌, ◌≤◌, min};
ghost use Rattle.weighing_tests.specs.Stairs.{stairs_weight, stairs_verdict};
ghost use Rattle.std.proofs.Common.{rules};

use counter::Counter;
use refusal::Refusal;
use weighing::span::check_span;
use weighing::verdict::heed;
use weighing::weighing::Weighing;

const MOST_STEPS: usize = 4;

const COSTS: [u64; MOST_STEPS + 1] = [0, 0, 1, 4, 9];

/// Up to four readings of any size; a span costs what the table says of its length. Its count may
/// begin anywhere.
#[derive(Drop)]
pub struct Stairs {
    n: usize,
    weighs: Counter,
    ghost few: { n ≤ 4 },
}

impl Stairs {
    /// No readings yet, and so many weighs counted, up to 2^63 - 1.
    pub fn new(weighs: u64) -> Stairs
        ensures value { (result.n ≡ 0) × (result.weighs.told ≡ min weighs (2 ^ 63 - 1)) }
    {
        Stairs {
            n: 0,
            weighs: Counter::from_told(weighs),
        }
    }
}

// written out in full, as a maker outside these crates would
impl Weighing for Stairs {
    ghost held = { λ s. s.n };

    ghost weight = { λ s. stairs_weight };

    ghost level = { λ s a b. 0 };

    ghost verdict = { λ s reading. stairs_verdict s.n };

    ghost top = { λ s. 9 };

    ghost count = { λ s. s.weighs.told };

    ghost few = { Prim.search rules };

    ghost bounded = { Prim.search rules };

    ghost levelled = { Prim.search rules };

    ghost topped = { Prim.search rules };

    ghost counted = { Prim.search rules };

    ghost known = { Prim.search rules };

    ghost full = { Prim.search rules };

    ghost quadrangle = { Prim.search rules };

    fn verdict(&self, reading: u32) -> Option<Refusal> {
        (self.n == MOST_STEPS).then_some(Refusal::Full)
    }

    fn take(&mut self, reading: u32) -> Result<usize, Refusal> {
        heed(self.verdict(reading))?;
        self.n += 1;
        Ok(self.n)
    }

    fn drop_last(&mut self) -> Result<usize, Refusal> {
        self.n = self.n.checked_sub(1).ok_or(Refusal::NothingHeld)?;
        Ok(self.n)
    }

    fn wipe(&mut self) -> usize {
        self.n = 0;
        0
    }

    fn weigh(&mut self, a: usize, b: usize) -> Result<u64, Refusal> {
        check_span(a, b, self.n)?;
        self.weighs.raise();
        Ok(COSTS[b - a])
    }

    fn level(&self, a: usize, b: usize) -> Result<u32, Refusal> {
        check_span(a, b, self.n)?;
        Ok(0)
    }

    fn count(&self) -> u64 {
        self.weighs.told()
    }

    fn held(&self) -> usize {
        self.n
    }

    fn top(&self) -> u64 {
        COSTS[MOST_STEPS]
    }
}
