//! What can be asked of a fit.
ghost use Rattle.std.specs.Prelude.{◌≡◌, ℕ, ◌+◌, ◌-◌, ◌*◌, ◌<◌, ◌≤◌, IsTrue, ◌↔◌};
ghost use Rattle.fit.specs.Calls.{Opens, TakeDid, DropDid, WipeDid, SettleDid, DivideDid, ExactDid, Ready, Allowed, size};

use super::Fit;
use crate::rounds::Rounds;
use counter::Counter;
use division::table::{MOST_SPANS, Table, Told};
use refusal::Refusal;
use weighing::weighing::Weighing;

impl<W: Weighing> Fit<W> {
    /// Opens a fit over a weighing and the readings that it brings. A limit below 1 is taken as 1, above 8 as 8.
    pub fn open(weighing: W, limit: usize) -> Fit<W>
        ensures value { Opens W.Weighing weighing limit result }
    {
        Fit {
            rounds: Rounds {
                weighing,
                table: Table::new(),
                round: 0,
                ledger: Counter::new(),
            },
            limit: limit.clamp(1, MOST_SPANS),
            mark: 0,
        }
    }

    /// How many readings are held.
    pub fn held(&self) -> usize
        ensures value { result ≡ size W.Weighing self.now }
    {
        self.rounds.weighing.held()
    }

    /// How many spans a division may have at most.
    pub fn limit(&self) -> usize
        ensures value { result ≡ self.now.limit }
    {
        self.limit
    }

    /// Takes a reading, as the weighing does.
    pub fn take(&mut self, reading: u32) -> Result<usize, Refusal>
        ensures answer { TakeDid W.Weighing self.old reading result self.new }
    {
        let n = self.rounds.weighing.take(reading)?;
        self.mark = self.mark.min(n);
        Ok(n)
    }

    /// Drops the last reading, as the weighing does. (`drop` itself is the language's own word.)
    pub fn drop_last(&mut self) -> Result<usize, Refusal>
        ensures answer { DropDid W.Weighing self.old result self.new }
    {
        let left = self.rounds.weighing.drop_last()?;
        self.mark = self.mark.min(left);
        Ok(left)
    }

    /// Drops all readings, as the weighing does.
    pub fn wipe(&mut self) -> usize
        ensures answer { WipeDid W.Weighing self.old result self.new }
    {
        let none = self.rounds.weighing.wipe();
        self.mark = self.mark.min(none);
        none
    }

    /// Settles all readings on top of those that are settled, and tells how far the weighing's count rose.
    /// For each of the m unsettled readings `answers` needs a place and `work` four, which are free afterwards.
    // Two lists of the caller's, as every call above lends them on.
    pub fn settle(&mut self, answers: &mut [usize], work: &mut [usize]) -> Result<u64, Refusal>
        ensures answer { SettleDid W.Weighing self.old answers.old work.old result self.new answers.new work.new }
    {
        let n = self.rounds.weighing.held();
        if n == 0 {
            return Err(Refusal::NothingHeld);
        }
        if n <= self.mark {
            self.mark = n;
            return Ok(0);
        }
        let unsettled = n - self.mark;
        if answers.len() < unsettled || work.len() < 4 * unsettled {
            return Err(Refusal::ListTooShort);
        }
        let before = self.rounds.weighing.count();
        self.rounds.run_all(self.limit, self.mark, answers, work);
        self.mark = n;
        Ok(self.rounds.weighing.count() - before)
    }

    // The number of readings, where some are held and all are settled.
    fn ready(&self) -> Result<usize, Refusal>
        ensures answer { Ready W.Weighing self.now result }
    {
        let n = self.rounds.weighing.held();
        if n == 0 {
            return Err(Refusal::NothingHeld);
        }
        if self.mark < n {
            return Err(Refusal::NotSettled);
        }
        Ok(n)
    }

    fn allows(&self, k: usize) -> bool
        ensures value { IsTrue result ↔ Allowed self.now.limit k }
    {
        0 < k && k <= self.limit
    }

    /// The best division of the readings into at most `k` spans: its ends go into the first places of `ends`.
    pub fn divide(&self, k: usize, ends: &mut [usize]) -> Result<Told, Refusal>
        ensures answer { DivideDid W.Weighing self.now k ends.old result ends.new }
    {
        let n = self.ready()?;
        if !self.allows(k) {
            return Err(Refusal::WrongSpans);
        }
        self.rounds.table.divide(n, k, ends)
    }

    /// The least weight of a division of the readings into exactly `k` spans.
    pub fn exact(&self, k: usize) -> Result<u64, Refusal>
        ensures answer { ExactDid W.Weighing self.now k result }
    {
        let n = self.ready()?;
        if !self.allows(k) || k > n {
            return Err(Refusal::WrongSpans);
        }
        Ok(self.rounds.table.tally(k, n).or_zero())
    }
}
