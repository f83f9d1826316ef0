//! The middle weighing: a span is held at its middle reading.
ghost use Rattle.std.specs.Prelude.{◌+◌, ◌/◌};
ghost use Rattle.rising.specs.Middles.{middle_weight};
ghost use Rattle.rising.specs.MiddlesLemmas.{middle_weight_local, middle_bounded, middle_quadrangle};
ghost use Rattle.std.proofs.Common.{arith};

use crate::readings::Readings;
use crate::row::{Hold, Row};

/// Holds a span at its middle reading; of two, at the later.
pub struct AtMiddle;

/// A span weighs how far its readings lie from the middle one, in all. Readings never fall.
pub type Middle = Row<AtMiddle>;

impl Hold for AtMiddle {
    ghost place = { λ a b. (a + b) / 2 };

    ghost weight = { middle_weight };

    ghost inside = { λ a b h. omega arith };

    ghost local = { middle_weight_local };

    ghost bounded = { middle_bounded };

    ghost quadrangle = { middle_quadrangle };

    fn place(a: usize, b: usize) -> usize {
        (a + b) / 2
    }

    #[tactic(auto, using(crate::specs::HeldLemmas::held_few, crate::specs::HeldLemmas::held_rising, crate::specs::MiddlesLemmas::middle_by_sums))]
    fn weight(row: &Readings, a: usize, b: usize) -> u64 {
        // the readings after the middle less those before it
        let twice = a + b;
        let ends = u64::from(row.sum_first(a)) + u64::from(row.sum_first(b));
        let middles = u64::from(row.sum_first(twice / 2))
            + u64::from(row.sum_first((twice + 1) / 2));
        ends - middles
    }
}
