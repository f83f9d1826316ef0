//! The even weighing: spans should all have one length.
#![tactic(auto)]

ghost use Rattle.std.specs.Prelude.{◌≡◌, ◌<◌, ◌≤◌, true};
ghost use Rattle.even.specs.Evens.{nominal_fits};

use counter::Counter;
use weighing::verdict::MOST_READINGS;

mod calls;

const FARTHEST: u64 = MOST_READINGS as u64 - 1;

const EVEN_TOP: u64 = FARTHEST * FARTHEST;

/// A span weighs the square of how far its length is from the nominal length, at level 0. Of the
/// readings only their number matters, so that is what is held.
#[derive(Drop)]
pub struct Even {
    n: usize,
    nominal: usize,
    weighs: Counter,
    ghost few: { n ≤ 512 },
    // a misfit holds nothing
    ghost fits: { (0 < n → nominal_fits nominal ≡ true) },
}

impl Even {
    /// No readings yet. A nominal length that is not 1 to 512 makes a misfit.
    pub fn new(nominal: usize) -> Even
        ensures value { (result.n ≡ 0) × (result.nominal ≡ nominal) × (result.weighs.told ≡ 0) }
    {
        Even {
            n: 0,
            nominal,
            weighs: Counter::new(),
        }
    }

    fn fits(&self) -> bool
        ensures value { result ≡ nominal_fits self.now.nominal }
    {
        (1..=MOST_READINGS).contains(&self.nominal)
    }
}
