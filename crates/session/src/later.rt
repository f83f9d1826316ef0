//! One line of a session: the call that its command asks for, made on the fit, and the reply that tells the answer.
ghost use Rattle.std.specs.Prelude.{◌≡◌, ℕ, length};
ghost use Rattle.console.specs.Grammar.{told};
ghost use Rattle.reply.specs.Replies.{reply_text};
ghost use Rattle.session.specs.Performed.{Asks, asked, RoomFor, refused_line, answer_line, Performed};

use console::{Command, value_of};
use division::table::Told;
use fit::fit::Fit;
use refusal::Refusal;
use reply::Reply;
use runs::step::{Answer, Call, step};
use weighing::weighing::Weighing;

// Not a `From`: both types are of other crates, and neither of those knows the other.
fn call_of(command: Command<'_>) -> Call
    ensures value { Asks (told command.entry) result }
{
    match command {
        Command::Take(digits) => Call::Take(value_of(digits)),
        Command::Drop => Call::Drop,
        Command::Wipe => Call::Wipe,
        Command::Settle => Call::Settle,
        Command::Divide(digits) => Call::Divide(value_of(digits) as usize),
        Command::Exact(digits) => Call::Exact(value_of(digits) as usize),
    }
}

// How many spans a call asks for; 0 of a call that asks for none.
// 0 and no Option: the answer alone doesn't tell which call it is of, and the line of a weight tells a number anyway.
fn spans_asked(call: Call) -> usize
    ensures value { result ≡ asked call }
{
    match call {
        Call::Divide(k) | Call::Exact(k) => k,
        Call::Take(_) | Call::Drop | Call::Wipe | Call::Settle => 0,
    }
}

fn reply_to(call: Call, answer: Result<Answer, Refusal>, held: usize, ends: &[usize]) -> Reply<'_>
    requires room { RoomFor answer (length ends.now) }
    ensures value { reply_text result ≡ answer_line call answer held ends.now }
{
    match answer {
        Ok(Answer::Held(count)) => Reply::Held(count),
        Ok(Answer::Settled(_)) => Reply::Settled(held),
        Ok(Answer::Divided(Told { spans, weight })) => Reply::Divided {
            weight,
            ends: &ends[..spans],
        },
        Ok(Answer::Weight(weight)) => Reply::Exact {
            spans: spans_asked(call),
            weight,
        },
        Err(why) => Reply::Refused(why),
    }
}

/// The reply to a line that is not understood, or to any call that is refused.
// named beside `opened`
pub fn refused(why: Refusal) -> Reply<'static>
    ensures value { reply_text result ≡ refused_line why }
{
    Reply::Refused(why)
}

/// Makes the call that a command asks for, and replies with its answer. `ends` takes a settle's answers and a divide's
/// ends, and `work` is for a settle.
///
/// The law over runs stands here too: after any calls since the fit was opened, the reply tells what the readings then
/// held and settled call for.
// Two lists of the caller's, as every call above lends them on.
pub fn perform<'a, W: Weighing>(
    fit: &mut Fit<W>,
    command: Command<'_>,
    ends: &'a mut [usize],
    work: &mut [usize],
) -> Reply<'a>
    ensures answer { Performed W.Weighing fit.old fit.new (told command.entry) (record { ends = ends.entry.now; work = work.old }) (reply_text result) }
{
    let call = call_of(command);
    let answer = step(fit, call, ends, work);
    let held = fit.held();
    reply_to(call, answer, held, ends)
}
