//! Corners as text: one corner a line, as `x y`.
#![tactic(auto)]

ghost use Rattle.std.specs.Prelude.{◌≡◌, Ok, Err};
ghost use Rattle.refusal.specs.Rules.{Broken, NoOther};
ghost use Rattle.corners.specs.Lines.{Writes, SomeNumber, Written, SomeCorner};

use hull::corner::Corner;
use refusal::Refusal;

/// The whole number that a text writes, with a sign or none.
fn whole(text: &str) -> Result<i32, Refusal>
    ensures answer { elim result [
      | Ok z ↦ Writes text.now z
      | Err why ↦ Broken (SomeNumber text.now) 14 NoOther why
    ] }
{
    text.parse().map_err(|_| Refusal::NotUnderstood)
}

/// The corner that a line writes: two whole numbers, each with a sign or none, and one space
/// between them.
// A function, since FromStr for Corner would have to stand in the hull's own crate, which knows no text.
pub fn read(line: &str) -> Result<Corner, Refusal>
    ensures answer { elim result [
      | Ok c ↦ Written line.now c
      | Err why ↦ Broken (SomeCorner line.now) 14 NoOther why
    ] }
{
    let (x, y) = line.split_once(' ').ok_or(Refusal::NotUnderstood)?;
    Ok(Corner {
        x: whole(x)?,
        y: whole(y)?,
    })
}
