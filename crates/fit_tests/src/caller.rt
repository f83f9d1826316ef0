//! A caller that knows nothing of a fit but what its steps promise, over any weighing.
ghost use Rattle.std.specs.Prelude.{◌≡◌};
ghost use Rattle.runs.specs.Runs.{ByDivided};
ghost use Rattle.fit_tests.specs.Caller.{CutDid};

use fit::fit::Fit;
use refusal::Refusal;
use runs::step::{Answer, Call, step};
use weighing::weighing::Weighing;

/// Opens a fit over a weighing, takes one more reading, settles and divides: the ends of the best division of all the
/// readings into at most `k` spans go into the first places of `ends`.
pub fn best_with<W: Weighing + Drop>(
    weighing: W,
    reading: u32,
    limit: usize,
    k: usize,
    ends: &mut [usize],
    work: &mut [usize],
) -> Result<Answer, Refusal>
    ensures answer { ByDivided (CutDid W.Weighing weighing reading limit k ends.old work.old ends.new) result }
{
    let mut fit = Fit::open(weighing, limit);
    step(&mut fit, Call::Take(reading), ends, work)?;
    step(&mut fit, Call::Settle, ends, work)?;
    step(&mut fit, Call::Divide(k), ends, work)
}
