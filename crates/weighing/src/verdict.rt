//! The verdict on a next reading.
ghost use Rattle.std.specs.Prelude.{◌≡◌, Some, None, Ok, Err};
ghost use Rattle.weighing.specs.Calls.{told};
ghost use Rattle.weighing.specs.Verdicts.{next_verdict};

use refusal::Refusal;

/// How many readings a weighing holds at most.
pub const MOST_READINGS: usize = 512;

/// No reading is greater.
pub const GREATEST_READING: u32 = 65_535;

const TOO_GREAT: u32 = GREATEST_READING + 1;

/// Whether `reading` may follow `count` readings of which the last is `last`.
pub fn verdict_on(count: usize, reading: u32, last: u32) -> Option<Refusal>
    ensures value { told result ≡ next_verdict count last reading }
{
    match (count, reading) {
        (MOST_READINGS, _) => Some(Refusal::Full),
        (_, TOO_GREAT..) => Some(Refusal::ReadingTooGreat),
        (_, next) if next < last => Some(Refusal::ReadingFalls),
        _ => None,
    }
}

/// A verdict as an answer that `?` passes on: refused with the verdict where there is one.
pub fn heed(verdict: Option<Refusal>) -> Result<(), Refusal>
    ensures value { elim result [ Ok _ ↦ verdict ≡ None | Err why ↦ verdict ≡ Some why ] }
{
    verdict.map_or(Ok(()), Err)
}
