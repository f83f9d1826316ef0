//! A sheet of blocks, which is the squared gap of row and column, a sheet with ties or an all-level one, as its shape says.
ghost use Rattle.std.specs.Prelude.{◌≡◌, ℕ, ◌+◌, ◌-◌, ◌*◌, ◌/◌, ◌^◌, ◌<◌, ◌≤◌, min, max, Bool, true, false, nat_lt};
ghost use Rattle.search_tests.specs.Gaps.{gap, gap_at, within};
ghost use Rattle.search_tests.specs.declared.blocks.Gap.{Gap};
ghost use Rattle.std.proofs.lemmas.Bool.{ltb-true, lt-ltb};
ghost use Rattle.search_tests.specs.GapsLemmas.{nearer_stays_nearer, later_block};
ghost use Rattle.std.proofs.Common.{rules};

use counter::Counter;
use refusal::Refusal;
use search::sheet::{MOST_COLUMNS, MOST_ROWS, Sheet};

/// How many rows and columns a sheet has, `tall` rows and `wide` columns to a block.
#[derive(Clone, Copy)]
pub struct Shape {
    pub rows: usize,
    pub columns: usize,
    pub tall: usize,
    pub wide: usize,
}

/// The squared gap between the block of a row and the block of a column, and the column that it was
/// read in. The order looks at the gap alone, so that level entries need not be equal.
#[derive(Clone, Copy)]
pub struct Gap {
    pub square: u64,
    pub column: usize,
}

/// Rows and columns are counted in blocks, and an entry is the squared gap between them: with blocks of
/// one it is the squared gap of row and column, and with one block of all the entries are all level.
#[derive(Drop)]
pub struct Blocks {
    shape: Shape,
    reads: Counter,
    ghost low: { shape.rows ≤ 512 },
    ghost narrow: { shape.columns ≤ 1023 },
    ghost thick: { 0 < shape.tall },
    ghost broad: { 0 < shape.wide },
}

impl Blocks {
    /// A sheet of this shape, as far as a sheet may have it, with this ledger.
    pub fn new(shape: Shape, ledger: u64) -> Blocks
        ensures shape { result.shape ≡ within shape }
        ensures ledger { result.reads.told ≡ min ledger (2 ^ 63 - 1) }
    {
        Blocks {
            shape: Shape {
                rows: shape.rows.min(MOST_ROWS),
                columns: shape.columns.min(MOST_COLUMNS),
                tall: shape.tall.max(1),
                wide: shape.wide.max(1),
            },
            reads: Counter::from_told(ledger),
        }
    }
}

/// The square of how far two blocks lie apart.
fn squared(row: usize, column: usize) -> u64
    requires low { row ≤ 512 }
    requires narrow { column ≤ 1023 }
    ensures value { result ≡ gap row column * gap row column }
{
    let apart = row.abs_diff(column) as u64;
    apart * apart
}

impl Sheet for Blocks {
    type Entry = Gap;

    ghost before = { λ a b. nat_lt a.square b.square };

    ghost rows = { λ s. s.shape.rows };

    ghost columns = { λ s. s.shape.columns };

    ghost at = { λ s i j. gap_at s.shape.tall s.shape.wide i j };

    ghost ledger = { λ s. s.reads.told };

    ghost passes = { λ s t. s.reads.told ≤ t.reads.told };

    ghost irreflexive = { Prim.search rules };

    ghost transitive = { Prim.search rules };

    ghost weak = { Prim.search rules };

    ghost low = { Prim.search rules };

    ghost narrow = { Prim.search rules };

    ghost capped = { Prim.search rules };

    ghost stays = { Prim.search rules };

    ghost onward = { Prim.search rules };

    ghost monotone = { λ s i j a b p q t u h. lt-ltb _ _ (nearer_stays_nearer (i / s.shape.tall) (j / s.shape.tall) (a / s.shape.wide) (b / s.shape.wide) (later_block i j s.shape.tall p s.thick) (later_block a b s.shape.wide t s.broad) (ltb-true _ _ h)) };

    fn precedes(a: &Gap, b: &Gap) -> bool {
        a.square < b.square
    }

    fn rows(&self) -> usize {
        self.shape.rows
    }

    fn columns(&self) -> usize {
        self.shape.columns
    }

    fn ledger(&self) -> u64 {
        self.reads.told()
    }

    fn entry(&mut self, row: usize, column: usize) -> Result<Gap, Refusal> {
        if row >= self.shape.rows || column >= self.shape.columns {
            return Err(Refusal::NoSuchPlace);
        }
        self.reads.raise();
        let square = squared(row / self.shape.tall, column / self.shape.wide);
        Ok(Gap { square, column })
    }
}
