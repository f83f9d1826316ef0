//! The round sheet: what each last span would cost, over the tallies of one span less.
ghost use Rattle.std.specs.Prelude.{◌≡◌, ℕ, ◌+◌, ◌-◌, ◌^◌, ◌<◌, ◌≤◌, min};
ghost use Rattle.std.proofs.Common.{arith, rules};
ghost use Rattle.division.specs.Costs.{before};
ghost use Rattle.division.specs.Tables.{carried_at};
ghost use Rattle.division.proofs.Costs;
ghost use Rattle.division.proofs.Rounds.{rounds_lawful};
ghost use Rattle.fit.specs.Rounds.{entry_of, ledger_of, Passing};

use counter::Counter;
use division::cost::Cost;
use division::table::Table;
use refusal::Refusal;
use search::sheet::Sheet;
use weighing::weighing::Weighing;

/// The weighing, the table of tallies and the number of the round, counted from 0: round k makes the
/// tallies of k + 1 spans from those of k. It is itself the sheet of that round, of n rows and n columns.
/// Row j - 1 and column a say what the best division of the first j readings costs whose last span starts
/// at a. It is lawful whatever the table holds.
#[derive(Drop)]
pub struct Rounds<W> {
    pub weighing: W,
    pub table: Table,
    pub round: usize,
    pub ledger: Counter,
}

impl<W: Weighing> Sheet for Rounds<W> {
    type Entry = Cost;

    ghost before = { before };

    ghost rows = { λ s. W.Weighing.held s.weighing };

    ghost columns = { λ s. W.Weighing.held s.weighing };

    ghost at = { λ s i a. entry_of W.Weighing s i a };

    ghost ledger = { λ s. ledger_of s };

    ghost passes = { λ s t. Passing W.Weighing s t };

    ghost irreflexive = { Costs.irreflexive };

    ghost transitive = { Costs.transitive };

    ghost weak = { Costs.weak };

    ghost low = { Prim.search rules };

    ghost narrow = { Prim.search rules };

    ghost capped = { Prim.search rules };

    ghost stays = { Prim.search rules };

    ghost onward = { Prim.search rules };

    // the law of a round, whatever its tallies are, from the quadrangle inequality of the weighing
    ghost monotone = { λ s i j a b ij jn ab bn won. rounds_lawful (W.Weighing.weight s.weighing) (carried_at s.table s.round) (W.Weighing.held s.weighing) _ _ a b (W.Weighing.quadrangle s.weighing) (omega arith) (omega arith) ab won };

    fn precedes(a: &Cost, b: &Cost) -> bool {
        a.precedes(*b)
    }

    fn rows(&self) -> usize {
        self.weighing.held()
    }

    fn columns(&self) -> usize {
        self.weighing.held()
    }

    fn ledger(&self) -> u64 {
        self.ledger.told()
    }

    fn entry(&mut self, row: usize, column: usize) -> Result<Cost, Refusal> {
        let n = self.weighing.held();
        if row >= n || column >= n {
            return Err(Refusal::NoSuchPlace);
        }
        self.ledger.raise();
        if column > row {
            return Ok(Cost::Empty);
        }
        let Cost::Number(tally) = self.table.carried(self.round, column) else {
            return Ok(Cost::Empty);
        };
        let weight = self.weighing.weigh(column, row + 1)?;
        Ok(Cost::Number(tally + weight))
    }
}
