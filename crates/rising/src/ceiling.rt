//! The ceiling weighing: a span is held at its last reading, the greatest.
ghost use Rattle.std.specs.Prelude.{◌-◌};
ghost use Rattle.rising.specs.Ceilings.{ceiling_weight};
ghost use Rattle.rising.specs.CeilingsLemmas.{ceiling_weight_local, ceiling_bounded, ceiling_quadrangle};
ghost use Rattle.std.proofs.Common.{arith};

use crate::readings::Readings;
use crate::row::{Hold, Row};

/// Holds a span at its last reading.
pub struct AtLast;

/// A span weighs what its readings lie below the last of them, in all. Readings never fall.
pub type Ceiling = Row<AtLast>;

impl Hold for AtLast {
    ghost place = { λ a b. b - 1 };

    ghost weight = { ceiling_weight };

    ghost inside = { λ a b h. omega arith };

    ghost local = { ceiling_weight_local };

    ghost bounded = { ceiling_bounded };

    ghost quadrangle = { ceiling_quadrangle };

    fn place(a: usize, b: usize) -> usize {
        b - 1
    }

    #[tactic(auto, using(crate::specs::HeldLemmas::held_rising, crate::specs::CeilingsLemmas::ceiling_by_sums))]
    fn weight(row: &Readings, a: usize, b: usize) -> u64 {
        let level = u64::from(row.at(Self::place(a, b)));
        (b - a) as u64 * level + u64::from(row.sum_first(a)) - u64::from(row.sum_first(b))
    }
}
