//! The row search of Aggarwal, Klawe, Moran, Shor and Wilber (1987): the leftmost least entry of each
//! row of a totally monotone sheet, in a number of reads that is linear in the rows and the columns.
//!
//! A sheet is totally monotone if a column that stands before one on its left in some row does so in
//! every later row. So the leftmost least columns do not fall from row to row. `reduce` throws away
//! columns until no more are left than rows, every second row is searched in the same way, and `scan`
//! finds the rows between, each between the answers of its neighbours.
#![tactic(auto)]

ghost use Rattle.std.specs.Prelude.{◌≡◌};
ghost use Rattle.search.specs.Least.{LeftmostIsThere, LeftmostIsOne};
ghost use Rattle.search.specs.Search.{SearchDid};

use crate::levels::{lower, raise, start};
use crate::sheet::Sheet;
use crate::strip::Strip;
use refusal::Refusal;

mod level;
mod levels;
mod reduce;
mod scan;
pub mod sheet;
pub mod strip;

/// Finds the leftmost least entry of each row of a strip of a sheet: place `t` of `answers` then holds
/// the sheet's column of it for row `t` of the strip, among the strip's columns.
///
/// Answers how far the sheet's ledger rose: at most four times the strip's columns and twelve times its rows.
/// The first four places of `work` for each row are free afterwards, and later places of both lists unchanged.
///
/// Refused where the strip has no row or column or passes the sheet's edge, then where `answers` has
/// fewer places than the strip has rows or `work` fewer than four times as many.
// Two lists that the caller lends, as each has its own number of places to show; one struct of both would also have to
// promise that it still holds the caller's two.
pub fn search<S: Sheet>(
    sheet: &mut S,
    strip: Strip,
    answers: &mut [usize],
    work: &mut [usize],
) -> Result<u64, Refusal>
    ensures answer { SearchDid S.Sheet strip sheet.old sheet.new answers.old answers.new work.old work.new result }
{
    if !strip.lies_in(sheet.rows(), sheet.columns()) {
        return Err(Refusal::WrongStrip);
    }
    if answers.len() < strip.rows || work.len() < 4 * strip.rows {
        return Err(Refusal::ListTooShort);
    }
    let before = sheet.ledger();
    start(sheet, work, strip);
    let last = lower(sheet, work, strip);
    raise(sheet, work, strip, last, answers);
    Ok(sheet.ledger() - before)
}

/// Under the order of any sheet, and so any strict weak order, a run of entries has one leftmost least entry and no second.
pub fn leftmost_stands<S: Sheet>()
    ensures there { LeftmostIsThere S.Sheet.before }
    ensures one { LeftmostIsOne S.Sheet.before }
{}
