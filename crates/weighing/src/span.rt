//! The test of a span.
ghost use Rattle.std.specs.Prelude.{Ok, Err};
ghost use Rattle.refusal.specs.Rules.{Broken, NoOther};
ghost use Rattle.weighing.specs.Calls.{Span};

use crate::rule::require;
use refusal::Refusal;

/// Whether `a..b` is a span of so many readings as are held; refused where it is none.
pub fn check_span(a: usize, b: usize, held: usize) -> Result<(), Refusal>
    ensures value { elim result [ Ok _ ↦ Span held a b | Err why ↦ Broken (Span held a b) 8 NoOther why ] }
{
    require(a < b && b <= held, Refusal::NoSuchPlace)
}
