//! The sheet of a hull: in row i the squared distances from corner i, once around.
ghost use Rattle.std.specs.Prelude.{◌≡◌, ◌-◌, ◌*◌, ◌<◌, length, int_lt};
ghost use Rattle.hull.specs.declared.reach.Reach.{Reach};
ghost use Rattle.hull.specs.Hulls.{corners_of, Numbered};
ghost use Rattle.hull.specs.Reaches.{reach, ReachesWithin};
ghost use Rattle.hull.specs.ReachesLemmas.{reach_monotone, below_true, true_below};
ghost use Rattle.std.proofs.Common.{rules};

use crate::reach::Reach;
use crate::table::Hull;
use counter::Counter;
use refusal::Refusal;
use search::sheet::Sheet;

/// A hull's sheet: the hull, and the ledger of how many entries were read.
// It owns its hull: one that borrows it could not outlive it, nor stand by while the hull is set anew.
#[derive(Clone, Copy)]
pub struct Swings {
    pub(crate) hull: Hull,
    pub(crate) ledger: Counter,
}

impl Hull {
    /// Row i, column j of the sheet of the hull.
    fn reach(&self, i: usize, j: usize) -> i64
        requires { Numbered self.now i × (j < 1024) }
        ensures value { result ≡ reach (corners_of self.now) i j }
    {
        let n = self.count();
        if j <= i {
            j as i64 - i as i64
        } else if j < i + n {
            self.apart(i, j % n)
        } else {
            -1
        }
    }
}

impl Swings {
    /// The sheet of a hull, no entry of it read yet.
    pub fn over(hull: &Hull) -> Swings
        ensures value { (result.hull ≡ hull.now) × (result.ledger.told ≡ 0) }
        ensures within { ReachesWithin (corners_of hull.now) }
    {
        Swings {
            hull: *hull,
            ledger: Counter::new(),
        }
    }
}

impl Sheet for Swings {
    type Entry = Reach;

    ghost before = { λ a b. int_lt b.value a.value };

    ghost rows = { λ s. length (corners_of s.hull) };

    ghost columns = { λ s. 2 * length (corners_of s.hull) - 1 };

    ghost at = { λ s i j. record { value = reach (corners_of s.hull) i j } };

    ghost ledger = { λ s. s.ledger.told };

    ghost passes = { λ s t. t.hull ≡ s.hull };

    ghost irreflexive = { Prim.search rules };

    ghost transitive = { Prim.search rules };

    ghost weak = { Prim.search rules };

    ghost low = { Prim.search rules };

    ghost narrow = { Prim.search rules };

    ghost capped = { Prim.search rules };

    ghost stays = { Prim.search rules };

    ghost onward = { Prim.search rules };

    ghost monotone = { λ s i j a b ij jn ab bn e.
        let cs = corners_of s.hull in
        below_true (reach cs j a) (reach cs j b)
        (reach_monotone cs s.hull.enough s.hull.left i j a b ij jn ab (true_below (reach cs i a) (reach cs i b) e)) };

    fn precedes(a: &Reach, b: &Reach) -> bool
        ensures value { result ≡ int_lt b.now.value a.now.value }
    {
        a > b
    }

    fn rows(&self) -> usize {
        self.hull.count()
    }

    fn columns(&self) -> usize {
        2 * self.hull.count() - 1
    }

    fn ledger(&self) -> u64 {
        self.ledger.told()
    }

    fn entry(&mut self, row: usize, column: usize) -> Result<Reach, Refusal> {
        if row >= self.rows() || column >= self.columns() {
            return Err(Refusal::NoSuchPlace);
        }
        let value = self.hull.reach(row, column);
        self.ledger.raise();
        Ok(Reach { value })
    }
}
