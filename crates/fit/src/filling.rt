//! The rounds of a settle: each is a row search over the unsettled rows, whose answers become tallies and last cuts.
ghost use Rattle.std.specs.Prelude.{◌≡◌, ℕ, ◌+◌, ◌-◌, ◌*◌, ◌^◌, ◌<◌, ◌≤◌, length, slice_index};
ghost use Rattle.fit.specs.Rounds.{ledger_of};
ghost use Rattle.fit.specs.Filling.{Ahead, KeptOne, KeptAll, RoundDone, RoundsDone};

use crate::rounds::Rounds;
use counter::Counter;
use search::search;
use search::sheet::Sheet;
use search::strip::Strip;
use weighing::weighing::Weighing;

// `round < 8` is no invariant of the type, since a sheet of any round is lawful.
impl<W: Weighing> Rounds<W> {
    // Reads an entry once more, and keeps it as the tally of the row's readings and its column as their last cut.
    fn keep(&mut self, row: usize, column: usize)
        requires row { row < W.held self.old.weighing }
        requires column { column < W.held self.old.weighing }
        requires round { self.old.round < 8 }
        requires ledger { ledger_of self.old + 1 < 2 ^ 63 - 1 }
        ensures after { KeptOne W.Weighing self.old self.new row column }
    {
        let Ok(cost) = self.entry(row, column) else {
            unreachable()
        };
        self.table.put(self.round + 1, row + 1, cost, column);
    }

    // Keeps what a search found for the rows from `mark` on, a column for each.
    fn keep_all(&mut self, mark: usize, columns: &[usize])
        requires rows { mark + length columns.now ≤ W.held self.old.weighing }
        requires found { (i : ℕ) → i < length columns.now → slice_index columns.now i < W.held self.old.weighing }
        requires round { self.old.round < 8 }
        requires ledger { ledger_of self.old + length columns.now < 2 ^ 63 - 1 }
        ensures after { KeptAll W.Weighing self.old self.new mark (length columns.now) columns.now }
    {
        for (i, &column) in columns.iter().enumerate() {
            self.keep(mark + i, column);
        }
    }

    // One round over the readings from `mark` on.
    // Two lists and no struct that lends both: each contract would have to add that either field is still the caller's list.
    fn run(&mut self, round: usize, mark: usize, answers: &mut [usize], work: &mut [usize])
        requires round { round < 8 }
        requires ahead { Ahead W.Weighing self.old mark answers.old work.old }
        ensures after { RoundDone W.Weighing self.old self.new round mark answers.old answers.new work.old work.new }
    {
        let n = self.weighing.held();
        self.round = round;
        self.ledger = Counter::new();
        let strip = Strip {
            row: mark,
            rows: n - mark,
            column: 0,
            columns: n,
        };
        let Ok(_) = search(self, strip, answers, work) else {
            unreachable()
        };
        self.keep_all(mark, &answers[..n - mark]);
    }

    // All rounds up to `limit` spans.
    pub(crate) fn run_all(
        &mut self,
        limit: usize,
        mark: usize,
        answers: &mut [usize],
        work: &mut [usize],
    )
        requires limit { limit ≤ 8 }
        requires ahead { Ahead W.Weighing self.old mark answers.old work.old }
        ensures after { RoundsDone W.Weighing self.old self.new limit mark answers.old answers.new work.old work.new }
    {
        for round in 0..limit {
            self.run(round, mark, answers, work);
        }
    }
}
