//! The greatest swing of a hull, from the farthest corners.
ghost use Rattle.std.specs.Prelude.{◌≡◌, ◌≤◌, length, Ok, Err};
ghost use Rattle.refusal.specs.Rules.{Broken, NoOther};
ghost use Rattle.hull.specs.Hulls.{corners_of};
ghost use Rattle.hull.specs.Widest.{Partnered, Greatest, AllFarthest, Widest};

use crate::table::Hull;
use refusal::Refusal;

impl Hull {
    /// The greatest squared distance of a corner and its partner; where each partner is the
    /// farthest corner, of any two corners.
    pub fn greatest_swing(&self, partners: &[usize]) -> Result<i64, Refusal>
        ensures answer { elim result [
          | Ok d ↦ Partnered (corners_of self.now) partners.now × Greatest (corners_of self.now) partners.now (length (corners_of self.now)) d
          | Err why ↦ Broken (length (corners_of self.now) ≤ length partners.now) 9
              (Broken (Partnered (corners_of self.now) partners.now) 8 NoOther) why
        ] }
        ensures widest { elim result [
          | Ok d ↦ (AllFarthest (corners_of self.now) partners.now → Widest (corners_of self.now) d)
          | Err _ ↦ Unit {0}
        ] }
    {
        let listed = partners.get(..self.count()).ok_or(Refusal::ListTooShort)?;
        let mut greatest = 0;
        for (i, partner) in listed.iter().enumerate() {
            let d = self.swing(i, *partner)?;
            greatest = d.max(greatest);
        }
        Ok(greatest)
    }
}
