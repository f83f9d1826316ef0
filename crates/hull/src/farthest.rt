//! The farthest corner from each corner of a hull, by a search of its sheet.
ghost use Rattle.std.specs.Prelude.{◌≡◌, ℕ, ◌+◌, ◌%◌, ◌<◌, length, Ok, Err, slice_index};
ghost use Rattle.hull.specs.Hulls.{corners_of};
ghost use Rattle.hull.specs.Farthest.{FarthestDid};

use crate::swings::Swings;
use crate::table::Hull;
use refusal::Refusal;
use search::search;
use search::sheet::Sheet;
use search::strip::Strip;

/// Makes of each column the corner that it stands for, where there is one column for each corner.
fn bring_round(columns: &mut [usize])
    ensures brought { (k : ℕ) → k < length columns.old → slice_index columns.new k ≡ slice_index columns.old k % length columns.old }
{
    let n = columns.len();
    for column in columns.iter_mut() {
        *column %= n;
    }
}

impl Swings {
    /// Writes the farthest corner from each corner into the answers, at a tie the first met
    /// counterclockwise, and tells how far the ledger rose.
    pub fn farthest(&mut self, answers: &mut [usize], work: &mut [usize]) -> Result<u64, Refusal>
        ensures answer { FarthestDid (corners_of self.old.hull) answers.old answers.new work.old work.new result }
        ensures after { elim result [
          | Ok told ↦ (self.new.hull ≡ self.old.hull) × (self.new.ledger.told ≡ self.old.ledger.told + told)
          | Err why ↦ self.new ≡ self.old
        ] }
    {
        let n = self.rows();
        let whole = Strip {
            row: 0,
            rows: n,
            column: 0,
            columns: self.columns(),
        };
        let told = search(self, whole, answers, work)?;
        bring_round(&mut answers[..n]);
        Ok(told)
    }
}

impl Hull {
    /// Writes the farthest corner from each corner into the answers, at a tie the first met
    /// counterclockwise, and tells how many entries of its sheet were read.
    pub fn farthest(&self, answers: &mut [usize], work: &mut [usize]) -> Result<u64, Refusal>
        ensures answer { FarthestDid (corners_of self.now) answers.old answers.new work.old work.new result }
    {
        let mut sheet = Swings::over(self);
        sheet.farthest(answers, work)
    }
}
