//! A strip: the part of a sheet that one search looks at.
ghost use Rattle.std.specs.Prelude.{ℕ, ◌+◌, ◌<◌, ◌≤◌, IsTrue, ◌↔◌};
ghost use Rattle.search.specs.Strips.{Inside};

/// Rows `row` to `row + rows - 1` and columns `column` to `column + columns - 1` of a sheet.
#[derive(Clone, Copy, PartialEq, Eq, Debug)]
pub struct Strip {
    pub row: usize,
    pub rows: usize,
    pub column: usize,
    pub columns: usize,
}

impl Strip {
    /// Whether the strip has a row and a column and passes neither edge of a sheet of this many rows and columns.
    pub fn lies_in(self, rows: usize, columns: usize) -> bool
        ensures decides { IsTrue result ↔ Inside self rows columns }
    {
        0 < self.rows
            && 0 < self.columns
            && self.row <= rows
            && self.rows <= rows - self.row
            && self.column <= columns
            && self.columns <= columns - self.column
    }
}
