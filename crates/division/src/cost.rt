//! Cost entries: what a division weighs, or empty where there is none.
ghost use Rattle.std.specs.Prelude.{◌≡◌};
ghost use Rattle.division.specs.Costs.{before, number_or_zero};

/// A weight from 0 to 2^62 - 1, or empty. A smaller number stands before a greater one, and any number before empty.
// `Option<u64>` would order the empty one first.
#[derive(Clone, Copy, PartialEq, Eq, PartialOrd, Ord, Debug)]
pub enum Cost {
    Number(u64),
    Empty,
}

impl Cost {
    /// Whether `self` stands strictly before `other`: the smaller number first, and empty after every number.
    pub fn precedes(self, other: Cost) -> bool
        ensures value { result ≡ before self other }
    {
        self < other
    }

    /// The number, or 0 for empty.
    pub fn or_zero(self) -> u64
        ensures value { result ≡ number_or_zero self }
    {
        match self {
            Cost::Number(v) => v,
            Cost::Empty => 0,
        }
    }
}
