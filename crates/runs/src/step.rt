//! Any call of a fit as one, and the law over whole runs of such calls.
ghost use Rattle.std.specs.Prelude.{◌≡◌, ℕ};
ghost use Rattle.runs.specs.Runs.{Did, Law};

use division::table::Told;
use fit::fit::Fit;
use refusal::Refusal;
use weighing::weighing::Weighing;

/// A call of a fit.
// A value and no closure: the law speaks of lists of calls.
#[derive(Clone, Copy, PartialEq, Eq, Debug)]
pub enum Call {
    Take(u32),
    Drop,
    Wipe,
    Settle,
    Divide(usize),
    Exact(usize),
}

/// What a call tells: how many readings are held, how far a settle's count rose, the division, or the least weight.
#[derive(Clone, Copy, PartialEq, Eq, Debug)]
pub enum Answer {
    Held(usize),
    Settled(u64),
    Divided(Told),
    Weight(u64),
}

/// Makes any of the six calls. `ends` takes a settle's answers and a divide's ends, and `work` is for a settle.
///
/// The law over runs stands here: over any weighing and limit, and after any calls since the fit was opened, the
/// call is answered or refused by the readings then held and which of them are settled, and an answered divide
/// names the best division of them.
// Two lists of the caller's, as every call above lends them on.
#[tactic(auto, using(crate::proofs::Runs::law))]
pub fn step<W: Weighing>(
    fit: &mut Fit<W>,
    call: Call,
    ends: &mut [usize],
    work: &mut [usize],
) -> Result<Answer, Refusal>
    ensures did { Did W.Weighing fit.old call (record { ends = ends.old; work = work.old }) result fit.new (record { ends = ends.new; work = work.new }) }
    ensures law { Law W.Weighing fit.old fit.new call (record { ends = ends.old; work = work.old }) result (record { ends = ends.new; work = work.new }) }
{
    match call {
        Call::Take(reading) => Ok(Answer::Held(fit.take(reading)?)),
        Call::Drop => Ok(Answer::Held(fit.drop_last()?)),
        Call::Wipe => Ok(Answer::Held(fit.wipe())),
        Call::Settle => Ok(Answer::Settled(fit.settle(ends, work)?)),
        Call::Divide(k) => fit.divide(k, ends).map(Answer::Divided),
        Call::Exact(k) => Ok(Answer::Weight(fit.exact(k)?)),
    }
}
