//! Rising readings with their running sums, as a row of them is held.
ghost use Rattle.std.specs.Prelude.{◌≡◌, ◌≤◌, length, take, drop};
ghost use Rattle.rising.specs.Entries.{taken, sums};
ghost use Rattle.rising.specs.Rows.{Small, Rising, Summed};

use weighing::verdict::{GREATEST_READING, MOST_READINGS};

mod calls;

/// What no weight over such readings passes.
pub(crate) const RISING_TOP: u64 = MOST_READINGS as u64 * GREATEST_READING as u64;

/// A reading, and the sum of it and those before it.
#[derive(Clone, Copy, Default)]
struct Entry {
    reading: u32,
    sum: u32,
}

/// As many entries as there can be readings, and one before them.
const ENTRIES: usize = MOST_READINGS + 1;

/// Up to 512 readings, none above 65,535 and none below the one before it: the `n` entries behind the first, which sums nothing.
// An array with its length beside it: a wipe takes a fixed number of steps, and that of an `ArrayVec` a write for each reading.
// The first entry makes every sum one read with no test, as fast as in a list of sums of its own.
// no model: the trait Hold and the specs cite the list by name
#[derive(Drop)]
pub struct Readings {
    entries: [Entry; ENTRIES],
    n: usize,
    ghost room: { length entries ≡ 513 },
    ghost few: { n ≤ 512 },
    ghost small: { Small (taken (take n (drop 1 entries))) },
    ghost rising: { Rising (taken (take n (drop 1 entries))) },
    ghost summed: { Summed (taken (take n (drop 1 entries))) (sums entries) },
}
