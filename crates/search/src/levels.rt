//! The levels of a search, made downwards by reducing and answered upwards by scanning.
ghost use Rattle.std.specs.Prelude.{◌≡◌, ℕ, ◌+◌, ◌-◌, ◌*◌, ◌/◌, ◌^◌, ◌<◌, ◌≤◌, length};
ghost use Rattle.search.specs.Levels.{Ready, Kept, AllKept, OneRow};
ghost use Rattle.search.specs.Steps.{Started, Deepened, Lowered, Raised};

use crate::level::Level;
use crate::reduce::reduce;
use crate::scan::fill;
use crate::sheet::Sheet;
use crate::strip::Strip;

// Sheet, list and strip are passed on and not held in a struct: each method of one would have to promise
// that it keeps both references and the strip, three clauses for the one that `Ready` is.

/// Makes the first level: all rows of the strip.
pub(crate) fn start<S: Sheet>(sheet: &mut S, work: &mut [usize], strip: Strip)
    requires ready { Ready S.Sheet sheet.old strip work.old }
    ensures after { Started S.Sheet sheet.old sheet.new strip work.old work.new }
{
    let level = Level::at(strip, 1);
    let base = level.base();
    let (_, room) = work.split_at_mut(base);
    let columns = strip.column..strip.column + strip.columns;
    reduce(sheet, room, level, columns);
}

/// Makes the level of every second row of the level of `stride`.
fn deepen<S: Sheet>(sheet: &mut S, work: &mut [usize], strip: Strip, stride: usize)
    requires ready { Ready S.Sheet sheet.old strip work.old }
    requires step { 0 < stride }
    requires below { stride * 2 ≤ strip.rows }
    requires kept { Kept S.Sheet sheet.old strip stride work.old }
    ensures after { Deepened S.Sheet sheet.old sheet.new strip stride work.old work.new }
{
    let above = Level::at(strip, stride);
    let level = Level::at(strip, stride * 2);
    let base = level.base();
    let (front, room) = work.split_at_mut(base);
    let columns = above.kept(front).iter().copied();
    reduce(sheet, room, level, columns);
}

/// Makes all levels below the first, each with twice the stride of the one before, and answers how many these are: the last has one row.
pub(crate) fn lower<S: Sheet>(sheet: &mut S, work: &mut [usize], strip: Strip) -> u32
    requires ready { Ready S.Sheet sheet.old strip work.old }
    requires kept { Kept S.Sheet sheet.old strip 1 work.old }
    ensures after { Lowered S.Sheet sheet.old sheet.new strip result work.old work.new }
{
    let last = strip.rows.ilog2();
    for depth in 0..last {
        deepen(sheet, work, strip, 1 << depth);
    }
    last
}

/// Answers the rows of all levels, from the last one up to the first.
pub(crate) fn raise<S: Sheet>(
    sheet: &mut S,
    work: &[usize],
    strip: Strip,
    last: u32,
    answers: &mut [usize],
)
    requires ready { Ready S.Sheet sheet.old strip work.now }
    requires long { strip.rows ≤ length answers.old }
    requires levels { AllKept S.Sheet sheet.old strip work.now last }
    requires one { OneRow strip last }
    ensures after { Raised S.Sheet sheet.old sheet.new strip answers.old answers.new }
{
    for depth in (0..=last).rev() {
        let level = Level::at(strip, 1 << depth);
        fill(sheet, level.kept(work), level, answers);
    }
}
