//! The reduction: of the columns of a level, those that can still hold a row's answer, at most one for each row.
ghost use Rattle.std.specs.Prelude.{◌≡◌, ℕ, ◌+◌, ◌-◌, ◌*◌, ◌<◌, ◌≤◌, List, length};
ghost use Rattle.std.specs.Iterator.{AlwaysYields, IsFinite};
ghost use Rattle.search.specs.Grid.{Stack, Holds, Column};
ghost use Rattle.search.specs.Levels.{nth};
ghost use Rattle.search.specs.Steps.{HasPlace, Read, Stands, Driven, Offered, Reduced, grid_of};

use crate::level::Level;
use crate::sheet::Sheet;

/// The entry of a place that the sheet has.
pub(crate) fn read<S: Sheet>(sheet: &mut S, row: usize, column: usize) -> S::Entry
    requires place { HasPlace S.Sheet sheet.old row column }
    ensures value { result ≡ S.at sheet.old row column }
    ensures after { Read S.Sheet 1 sheet.old sheet.new }
{
    match sheet.entry(row, column) {
        Ok(entry) => entry,
        Err(_) => unreachable(),
    }
}

/// Whether column `right` stands strictly before column `left` in a row.
fn beats<S: Sheet>(sheet: &mut S, row: usize, left: usize, right: usize) -> bool
    requires old { HasPlace S.Sheet sheet.old row left }
    requires new { HasPlace S.Sheet sheet.old row right }
    ensures value { result ≡ S.before (S.at sheet.old row right) (S.at sheet.old row left) }
    ensures after { Read S.Sheet 2 sheet.old sheet.new }
{
    let old = read(sheet, row, left);
    let new = read(sheet, row, right);
    S::precedes(&new, &old)
}

// The stack stands in the room that is lent, with nothing on a heap: so its length goes beside the room.
// Sheet, room and level are in no struct, which would have to promise at each step that it keeps the three.

/// How many columns of the stack are left once `column` has driven out those on top that it beats.
fn driven<S: Sheet>(sheet: &mut S, room: &[usize], level: Level, len: usize, column: usize) -> usize
    requires stands { Stands S.Sheet sheet.old level room.now }
    requires stack { Stack (grid_of S.Sheet sheet.old level) (nth room.now) len column }
    requires inside { Column (grid_of S.Sheet sheet.old level) column }
    ensures after { Driven S.Sheet sheet.old sheet.new level room.now len column result }
{
    // no `rfind`: its closure changes the sheet at each call, and would have to promise all that the loop's invariant says
    for top in (0..len).rev() {
        if !beats(sheet, level.row(top), room[top], column) {
            return top + 1;
        }
    }
    0
}

/// Offers a column to the stack, and answers how many columns the stack has then.
fn offer<S: Sheet>(
    sheet: &mut S,
    room: &mut [usize],
    level: Level,
    len: usize,
    column: usize,
) -> usize
    requires stands { Stands S.Sheet sheet.old level room.old }
    requires stack { Stack (grid_of S.Sheet sheet.old level) (nth room.old) len column }
    requires inside { Column (grid_of S.Sheet sheet.old level) column }
    ensures after { Offered S.Sheet sheet.old sheet.new level room.old room.new len column result }
{
    let top = driven(sheet, room, level, len, column);
    if top < level.rows {
        room[top] = column;
        return top + 1;
    }
    top
}

/// Reduces columns that have all answers among them to those that the level keeps, and writes how many these are behind their places.
pub(crate) fn reduce<S: Sheet, I: Iterator<Item = usize> + Drop>(
    sheet: &mut S,
    room: &mut [usize],
    level: Level,
    columns: I,
)
    ghost offered: { List ℕ }
    requires stands { Stands S.Sheet sheet.old level room.old }
    requires can { I.can_next columns }
    requires ends { IsFinite (I.remaining columns) }
    requires gives { AlwaysYields I.next_gives (λ c. c) columns offered }
    requires holds { Holds (grid_of S.Sheet sheet.old level) (nth offered) (length offered) }
    ensures after { Reduced S.Sheet sheet.old sheet.new level.strip level.stride room.old room.new (length offered) }
{
    let mut len = 0;
    for column in columns {
        len = offer(sheet, room, level, len, column);
    }
    room[level.rows] = len;
}
