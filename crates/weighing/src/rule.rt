//! A rule of a call, with the refusal where it is broken.
ghost use Rattle.std.specs.Prelude.{◌≡◌, true, false, Ok, Err};

use refusal::Refusal;

/// Refuses with `why` where a rule is not kept.
pub fn require(kept: bool, why: Refusal) -> Result<(), Refusal>
    ensures value { elim result [ Ok _ ↦ kept ≡ true | Err other ↦ (kept ≡ false) × (other ≡ why) ] }
{
    kept.then_some(()).ok_or(why)
}
