//! The table of tallies and last cuts, and the division that is read off it. A tally is the least weight of a division
//! of so many readings into so many spans; its last cut is where the last of these spans starts.
ghost use Rattle.std.specs.Prelude.{◌≡◌, ℕ, ◌+◌, ◌-◌, ◌*◌, ◌<◌, ◌≤◌, length, take, drop, Some, None};
ghost use Rattle.division.specs.Costs.{Small};
ghost use Rattle.division.specs.Divide.{Fewest, TableDivided, Divided};
ghost use Rattle.division.specs.Tables.{cost_of, tally_at, cut_at, carried_at, Carriable, Right, Fresh, Put};
ghost use Rattle.division.specs.Trails.{trail};

use crate::cost::Cost;
use refusal::Refusal;

/// A table has this many spans at most.
pub const MOST_SPANS: usize = 8;

/// A table covers this many readings at most.
// its own number: a table knows no weighing
pub const MOST_READINGS: usize = 512;

const ROW: usize = MOST_READINGS + 1;

const CELLS: usize = MOST_SPANS * ROW;

// one more than the greatest number that a cell holds
const TOO_GREAT: u64 = 1 << 62;

// what seven spans weigh at most
const MOST_CARRIED: u64 = 7 * ((1 << 59) - 1);

/// What a divide tells of its division.
#[derive(Clone, Copy, PartialEq, Eq, Debug)]
pub struct Told {
    pub spans: usize,
    pub weight: u64,
}

/// Eight rows of 513 tallies and eight of last cuts: a cell for each number of spans from 1 to 8
/// and of readings from 0 to 512.
// One flat array for each: fixed memory, and the cell of a place is one multiplication away.
// Two and not one of cells, whose padding would take half as much again: 16 bytes a cell, and not 10.
#[derive(Drop)]
pub struct Table {
    tallies: [u64; CELLS],
    cuts: [u16; CELLS],
}

// Where the cell of k spans and j readings stands.
// Everywhere the two numbers are the names of a cell, in this order.
fn cell(k: usize, j: usize) -> Option<usize>
    ensures value { elim result [
      | Some i ↦ (0 < k) × (k ≤ 8) × (j ≤ 512) × (i ≡ (k - 1) * 513 + j)
      | None ↦ ((0 < k) → k ≤ 8 → j ≤ 512 → ⊥)
    ] }
{
    if 0 < k && k <= MOST_SPANS && j <= MOST_READINGS {
        Some((k - 1) * ROW + j)
    } else {
        None
    }
}

// A fresh array is full of zeros, so 0 says empty and a number stands one higher.
fn written(cost: Cost) -> Option<u64>
    ensures value { elim result [ Some held ↦ Small cost × (cost_of held ≡ cost) | None ↦ (Small cost → ⊥) ] }
{
    match cost {
        Cost::Number(v) if v < TOO_GREAT => Some(v + 1),
        Cost::Number(_) => None,
        Cost::Empty => Some(0),
    }
}

fn read(held: u64) -> Cost
    ensures value { result ≡ cost_of held }
{
    if held == 0 || held > TOO_GREAT {
        Cost::Empty
    } else {
        Cost::Number(held - 1)
    }
}

impl Table {
    /// A table whose every cell is empty: right for no readings.
    pub fn new() -> Table
        ensures value { Fresh result }
        ensures right { (weight : ℕ → ℕ → ℕ) (rounds : ℕ) → Right weight result rounds 0 }
    {
        Table {
            tallies: [0; CELLS],
            cuts: [0; CELLS],
        }
    }

    /// The tally of k spans and j readings: for no spans 0 at no readings; empty where there is no cell.
    pub fn tally(&self, k: usize, j: usize) -> Cost
        ensures value { result ≡ tally_at self.now k j }
    {
        if k == 0 && j == 0 {
            return Cost::Number(0);
        }
        cell(k, j).map_or(Cost::Empty, |i| read(self.tallies[i]))
    }

    /// The tally as the round of k + 1 spans takes it: empty above what seven spans weigh at most.
    pub fn carried(&self, k: usize, j: usize) -> Cost
        ensures value { result ≡ carried_at self.now k j }
        ensures most { Carriable result }
    {
        match self.tally(k, j) {
            Cost::Number(v) if v > MOST_CARRIED => Cost::Empty,
            cost => cost,
        }
    }

    // At most 512 whatever the cell holds, so that it can be followed.
    fn cut(&self, k: usize, j: usize) -> usize
        ensures value { result ≡ cut_at self.now k j }
    {
        cell(k, j).map_or(0, |i| usize::from(self.cuts[i]).min(MOST_READINGS))
    }

    /// Puts a tally and its last cut into the cell of k spans and j readings, if there is such a cell and they fit it.
    pub fn put(&mut self, k: usize, j: usize, cost: Cost, cut: usize)
        ensures after { Put k j cost cut self.old self.new }
    {
        if let (Some(i), Some(held)) = (cell(k, j), written(cost))
            && cut <= MOST_READINGS
        {
            self.tallies[i] = held;
            self.cuts[i] = cut as u16;
        }
    }

    // Of 1 to k spans the fewest with the least tally of n readings.
    fn fewest(&self, n: usize, k: usize) -> usize
        requires { (0 < k) × (k ≤ 8) }
        ensures value { Fewest self.now n k result }
    {
        (1..=k).min_by_key(|&s| (self.tally(s, n), s)).unwrap_or(1)
    }

    // Writes the ends of s spans of n readings from the back, as the last cuts have them.
    fn follow(&self, s: usize, n: usize, ends: &mut [usize])
        requires { s ≤ length ends.old }
        ensures first { take s ends.new ≡ trail (cut_at self.now) s n }
        ensures rest { drop s ends.new ≡ drop s ends.old }
    {
        let mut j = n;
        // by number: of elements that an iterator lends to be written, a proof learns no value
        for i in (0..s).rev() {
            ends[i] = j;
            j = self.cut(i + 1, j);
        }
    }

    /// The best division of n readings into at most k spans: its ends go into the first places of the list.
    pub fn divide(&self, n: usize, k: usize, ends: &mut [usize]) -> Result<Told, Refusal>
        ensures answer { TableDivided self.now n k ends.old result ends.new }
        ensures best { (weight : ℕ → ℕ → ℕ) (rounds : ℕ) → Right weight self.now rounds n → k ≤ rounds → Divided weight n k ends.old result ends.new }
    {
        if n == 0 {
            return Err(Refusal::NothingHeld);
        }
        if n > MOST_READINGS {
            return Err(Refusal::NoSuchPlace);
        }
        if k == 0 || k > MOST_SPANS {
            return Err(Refusal::WrongSpans);
        }
        let spans = self.fewest(n, k);
        if ends.len() < spans {
            return Err(Refusal::ListTooShort);
        }
        self.follow(spans, n, ends);
        let weight = self.tally(spans, n).or_zero();
        Ok(Told { spans, weight })
    }
}

#[cfg(test)]
mod tests {
    use super::*;

    // Readings 2 2 5 9 9 under their ceiling: whole they weigh 18, cut after the second 4.
    #[test]
    fn cuts_before_the_rise(rt: HostRuntime) {
        let mut table = Table::new();
        table.put(1, 5, Cost::Number(18), 0);
        table.put(2, 5, Cost::Number(4), 2);
        let mut ends = [7; 3];
        assert_eq!(rt;
            table.divide(5, 2, &mut ends),
            Ok(Told {
                spans: 2,
                weight: 4,
            })
        );
        assert_eq!(rt; ends, [2, 5, 7]);
        assert_eq!(rt;
            table.divide(5, 2, &mut ends[0..1]),
            Err(Refusal::ListTooShort)
        );
        assert_eq!(rt; table.divide(5, 9, &mut ends), Err(Refusal::WrongSpans));
        assert_eq!(rt; table.divide(0, 2, &mut ends), Err(Refusal::NothingHeld));
        assert_eq!(rt; table.divide(513, 2, &mut ends), Err(Refusal::NoSuchPlace));
    }

    #[test]
    fn holds_what_fits(rt: HostRuntime) {
        let mut table = Table::new();
        table.put(8, 512, Cost::Number(TOO_GREAT - 1), 511);
        table.put(8, 511, Cost::Number(TOO_GREAT), 511);
        assert_eq!(rt; table.tally(8, 512), Cost::Number(TOO_GREAT - 1));
        assert_eq!(rt; table.carried(8, 512), Cost::Empty);
        assert_eq!(rt; table.cut(8, 512), 511);
        assert_eq!(rt; table.tally(8, 511), Cost::Empty);
        assert_eq!(rt; table.tally(8, 513), Cost::Empty);
        assert_eq!(rt; table.tally(0, 0), Cost::Number(0));
        assert_eq!(rt; table.tally(0, 1), Cost::Empty);
    }
}
