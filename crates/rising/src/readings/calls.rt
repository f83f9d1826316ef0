//! What can be done with readings: one added at the end, the last one dropped, and sums read off.
ghost use Rattle.std.specs.Prelude.{◌≡◌, ◌+◌, ◌-◌, ◌<◌, ◌≤◌, [], length, slice_index};
ghost use Rattle.weighing.specs.Calls.{told};
ghost use Rattle.rising.specs.Held.{entries_of, readings};
ghost use Rattle.rising.specs.Rows.{rising_verdict, last, Pushes, Pops};
ghost use Rattle.rising.specs.Sums.{sum_first};

use crate::readings::{ENTRIES, Entry, Readings};
use refusal::Refusal;
use weighing::verdict::{heed, verdict_on};

impl Readings {
    pub(crate) fn new() -> Readings
        ensures value { readings result ≡ [] }
    {
        Readings {
            entries: [Entry::default(); ENTRIES],
            n: 0,
        }
    }

    pub(crate) fn held(&self) -> usize
        ensures value { result ≡ length (readings self.now) }
        ensures few { result ≤ 512 }
    {
        self.n
    }

    fn entries(&self) -> &[Entry]
        ensures value { result.now ≡ entries_of self.now }
    {
        &self.entries[1..self.n + 1]
    }

    fn last(&self) -> u32
        ensures value { result ≡ last (readings self.now) }
    {
        self.entries().last().map_or(0, |entry| entry.reading)
    }

    pub(crate) fn verdict(&self, reading: u32) -> Option<Refusal>
        ensures value { told result ≡ rising_verdict (readings self.now) reading }
    {
        verdict_on(self.held(), reading, self.last())
    }

    pub(crate) fn take(&mut self, reading: u32) -> Result<usize, Refusal>
        ensures answer { Pushes readings self.old self.new reading result }
    {
        heed(self.verdict(reading))?;
        let sum = self.sum_first(self.held()) + reading;
        self.entries[self.n + 1] = Entry { reading, sum };
        self.n += 1;
        Ok(self.n)
    }

    pub(crate) fn drop_last(&mut self) -> Result<usize, Refusal>
        ensures answer { Pops readings self.old self.new result }
    {
        // Two lines; a shared count would need a contract as long as theirs.
        self.n = self.n.checked_sub(1).ok_or(Refusal::NothingHeld)?;
        Ok(self.n)
    }

    pub(crate) fn wipe(&mut self)
        ensures after { readings self.new ≡ [] }
    {
        self.n = 0;
    }

    pub(crate) fn at(&self, i: usize) -> u32
        requires { i < length (readings self.now) }
        ensures value { result ≡ slice_index (readings self.now) i }
    {
        self.entries()[i].reading
    }

    /// The sum of the first `k` readings.
    pub(crate) fn sum_first(&self, k: usize) -> u32
        requires { k ≤ length (readings self.now) }
        ensures value { result ≡ sum_first (readings self.now) k }
    {
        self.entries[k].sum
    }
}
