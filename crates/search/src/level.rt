//! A level: every stride-th row of a strip, and where the work list keeps the columns of it.
ghost use Rattle.std.specs.Prelude.{◌≡◌, ℕ, ◌+◌, ◌-◌, ◌*◌, ◌/◌, ◌<◌, ◌≤◌, length};
ghost use Rattle.search.specs.Strips.{Inside};
ghost use Rattle.search.specs.Levels.{Shown, base_of, many, row_of};

use crate::strip::Strip;

/// Row `i` of a level is row `(i + 1) * stride - 1` of the strip. The columns that the level keeps, at
/// most `rows`, have a room in the work list, and behind their places stands how many they are.
#[derive(Clone, Copy)]
pub struct Level {
    pub strip: Strip,
    pub stride: usize,
    pub rows: usize,
    ghost inside: { Inside strip 512 1023 },
    ghost step: { 0 < stride },
    ghost some: { 0 < rows },
    ghost whole: { rows ≡ strip.rows / stride },
}

impl Level {
    /// The level of every `stride`-th row.
    pub(crate) fn at(strip: Strip, stride: usize) -> Level
        requires inside { Inside strip 512 1023 }
        requires step { 0 < stride }
        requires some { stride ≤ strip.rows }
        ensures strip { result.strip ≡ strip }
        ensures stride { result.stride ≡ stride }
    {
        Level {
            strip,
            stride,
            rows: strip.rows / stride,
        }
    }

    /// The sheet's row that is row `i` of the level.
    pub(crate) fn row(self, i: usize) -> usize
        requires { i < self.rows }
        ensures { result ≡ row_of self.strip self.stride i }
    {
        self.strip.row + ((i + 1) * self.stride - 1)
    }

    /// Where the level's room begins in the work list. The levels above it, with twice its rows each, have theirs before it.
    pub(crate) fn base(self) -> usize
        ensures { result ≡ base_of self.strip self.stride }
    {
        3 * (self.strip.rows - self.rows)
    }

    /// The columns that a work list keeps of the level.
    pub(crate) fn kept(self, work: &[usize]) -> &[usize]
        requires room { base_of self.strip self.stride + self.rows < length work.now }
        requires few { many work.now self.strip self.stride ≤ self.rows }
        ensures { Shown self.strip self.stride work.now result.now }
    {
        let room = &work[self.base()..];
        &room[..room[self.rows]]
    }
}
