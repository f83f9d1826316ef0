//! A caller that knows nothing of the row search but its promise.
ghost use Rattle.std.specs.Prelude.{◌≡◌};
ghost use Rattle.search_tests.specs.Caller.{RowAnswered};

use refusal::Refusal;
use search::search;
use search::sheet::Sheet;
use search::strip::Strip;

/// The column of the leftmost least entry of a row; refused where there is no such row or no column.
pub fn least_in_row<S: Sheet>(sheet: &mut S, row: usize) -> Result<usize, Refusal>
    ensures answer { RowAnswered S.Sheet row sheet.old sheet.new result }
{
    let whole = Strip {
        row,
        rows: 1,
        column: 0,
        columns: sheet.columns(),
    };
    let mut answers = [0; 1];
    let mut work = [0; 4];
    search(sheet, whole, &mut answers, &mut work)?;
    Ok(answers[0])
}
