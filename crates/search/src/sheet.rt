//! A sheet: rows and columns of entries under an order of its own, lawful for the row search.
ghost use Rattle.std.specs.Prelude.{◌≡◌, ℕ, ◌+◌, ◌-◌, ◌^◌, ◌<◌, ◌≤◌, Bool, true, false, Ok, Err};
ghost use Rattle.refusal.specs.Rules.{Broken, NoOther};
ghost use Rattle.search.specs.Reading.{Place, Reads};

use refusal::Refusal;

/// A sheet has at most so many rows.
pub const MOST_ROWS: usize = 512;

/// A sheet has at most so many columns.
pub const MOST_COLUMNS: usize = 1023;

/// A sheet has rows and columns, an entry at each place, an order of its entries, a ledger of how
/// many entries were read, and a passing between its states that its maker chooses.
pub trait Sheet {
    type Entry: Drop;

    // whether the first entry stands strictly before the second
    ghost before: { Self.Entry → Self.Entry → Bool };

    ghost rows: { Self → ℕ };

    ghost columns: { Self → ℕ };

    // the entry of a row and a column
    ghost at: { Self → ℕ → ℕ → Self.Entry };

    // how many entries were read, up to 2^63 - 1
    ghost ledger: { Self → ℕ };

    // what the maker of the sheet wants to know of a state and of those that reading makes of it
    ghost passes: { Self → Self → Type 0 };

    /// Whether `a` stands strictly before `b`.
    fn precedes(a: &Self::Entry, b: &Self::Entry) -> bool
        ensures value { result ≡ before a.now b.now };

    /// How many rows there are, at most 512.
    fn rows(&self) -> usize
        ensures value { result ≡ rows self.now };

    /// How many columns there are, at most 1,023.
    fn columns(&self) -> usize
        ensures value { result ≡ columns self.now };

    /// How many entries were read, up to 2^63 - 1.
    fn ledger(&self) -> u64
        ensures value { result ≡ ledger self.now };

    /// The entry of a row and a column; refused where there is no such place.
    fn entry(&mut self, row: usize, column: usize) -> Result<Self::Entry, Refusal>
        ensures answer { elim result [
          | Ok e ↦ Place rows columns self.old row column × (e ≡ at self.old row column)
              × Reads rows columns at ledger passes 1 self.old self.new
          | Err why ↦ Broken (Place rows columns self.old row column) 8 NoOther why
              × (self.new ≡ self.old)
        ] };

    ghost irreflexive: { (x : Self.Entry) → before x x ≡ false };

    ghost transitive: { (x y z : Self.Entry) → before x y ≡ true → before y z ≡ true → before x z ≡ true };

    // with the two laws above: where neither of two entries stands before the other they are level, and level is transitive
    ghost weak: { (x y z : Self.Entry) → before x y ≡ false → before y z ≡ false → before x z ≡ false };

    ghost low: { (s : Self) → rows s ≤ 512 };

    ghost narrow: { (s : Self) → columns s ≤ 1023 };

    ghost capped: { (s : Self) → ledger s ≤ 2 ^ 63 - 1 };

    ghost stays: { (s : Self) → passes s s };

    ghost onward: { (s t u : Self) → passes s t → passes t u → passes s u };

    // total monotonicity: a column that stands before one on its left does so in every later row
    ghost monotone: { (s : Self) (i j a b : ℕ) → i < j → j < rows s → a < b → b < columns s → before (at s i b) (at s i a) ≡ true → before (at s j b) (at s j a) ≡ true };
}
