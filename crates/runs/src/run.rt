//! A whole session as one call: what it promises rests on no hypothesis.
ghost use Rattle.std.specs.Prelude.{◌≡◌, ℕ, min, length};
ghost use Rattle.fit.specs.Calls.{Opens};
ghost use Rattle.runs.specs.Sessions.{Ran};

use crate::step::{Answer, Call, step};
use fit::fit::Fit;
use refusal::Refusal;
use weighing::weighing::Weighing;

// Makes each call, as many as there is room for answers.
// Two lists and no struct that lends both: each contract would have to add that either field is still the caller's list.
fn make_all<W: Weighing>(
    fit: &mut Fit<W>,
    calls: &[Call],
    answers: &mut [Result<Answer, Refusal>],
    ends: &mut [usize],
    work: &mut [usize],
)
    ensures after { (w : W) (k : ℕ) → Opens W.Weighing w k fit.old → Ran W.Weighing w k (min (length calls.now) (length answers.old)) calls.now answers.old answers.new fit.new }
{
    // By index: of elements that an iterator lends to be written, a proof learns no value.
    for i in 0..calls.len().min(answers.len()) {
        answers[i] = step(fit, calls[i], ends, work);
    }
}

/// Opens a fit over a weighing and makes each call of a list on it, as many as `answers` has places.
pub fn run<W: Weighing>(
    weighing: W,
    limit: usize,
    calls: &[Call],
    answers: &mut [Result<Answer, Refusal>],
    ends: &mut [usize],
    work: &mut [usize],
) -> Fit<W>
    ensures value { Ran W.Weighing weighing limit (min (length calls.now) (length answers.old)) calls.now answers.old answers.new result }
{
    let mut fit = Fit::open(weighing, limit);
    make_all(&mut fit, calls, answers, ends, work);
    fit
}
