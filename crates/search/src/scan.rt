//! The scans: the answers of every second row of a level, each between those of its neighbours.
ghost use Rattle.std.specs.Prelude.{◌≡◌, ℕ, ◌+◌, ◌-◌, ◌*◌, ◌/◌, ◌<◌, ◌≤◌, length, slice_index};
ghost use Rattle.search.specs.Search.{Fits};
ghost use Rattle.search.specs.Grid.{Answer, Keeps};
ghost use Rattle.search.specs.Levels.{nth};
ghost use Rattle.search.specs.Steps.{HasPlace, Reaches, Scanned, Filled, grid_of};

use crate::level::Level;
use crate::reduce::read;
use crate::sheet::Sheet;

/// The place of the first column that reaches column `last`, or of the last one.
fn reach(columns: &[usize], last: usize) -> usize
    requires { 0 < length columns.now }
    ensures { Reaches columns.now last result }
{
    columns
        .iter()
        .position(|column| *column >= last)
        .unwrap_or(columns.len() - 1)
}

/// The column of the leftmost least entry of a row among some columns.
fn least_of<S: Sheet>(sheet: &mut S, columns: &[usize], row: usize) -> usize
    requires some { 0 < length columns.now }
    requires places { (j : ℕ) → j < length columns.now → HasPlace S.Sheet sheet.old row (nth columns.now j) }
    ensures after { Scanned S.Sheet sheet.old sheet.new columns.now row result }
{
    // no `min_by_key`: a read changes the sheet, and its entries have an order of their own
    let mut best = columns[0];
    let mut least = read(sheet, row, best);
    for column in &columns[1..] {
        let here = read(sheet, row, *column);
        if S::precedes(&here, &least) {
            best = *column;
            least = here;
        }
    }
    best
}

/// Writes the answers of a level's rows, given those of every second row and the columns that the level keeps.
pub(crate) fn fill<S: Sheet>(sheet: &mut S, kept: &[usize], level: Level, answers: &mut [usize])
    requires fits { Fits S.Sheet sheet.old level.strip }
    requires keeps { Keeps (grid_of S.Sheet sheet.old level) (nth kept.now) (length kept.now) }
    requires known { (j : ℕ) → 2 * j + 1 < level.rows → Answer (grid_of S.Sheet sheet.old level) (2 * j + 1) (slice_index answers.old ((2 * j + 1 + 1) * level.stride - 1)) }
    requires long { level.strip.rows ≤ length answers.old }
    ensures after { Filled S.Sheet sheet.old sheet.new level.strip level.stride (length kept.now) answers.old answers.new }
{
    let mut place = 0;
    // by number: a row's answer is written between two that are read in the same list, which no iterator lends
    for p in 0..level.rows.div_ceil(2) {
        let at = (2 * p + 1) * level.stride - 1;
        let last = if 2 * p + 1 < level.rows {
            answers[at + level.stride]
        } else {
            kept[kept.len() - 1]
        };
        let columns = &kept[place..];
        let end = reach(columns, last);
        answers[at] = least_of(sheet, &columns[..end + 1], level.strip.row + at);
        place += end;
    }
}
