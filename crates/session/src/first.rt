//! The first line of a session: the fit that it opens, and the reply to it.
ghost use Rattle.std.specs.Prelude.{◌≡◌};
ghost use Rattle.reply.specs.Replies.{reply_text};
ghost use Rattle.fit.specs.Calls.{Opens};
ghost use Rattle.session.specs.Performed.{ByNumber, open_line};

use console::value_of;
use fit::fit::Fit;
use reply::{Kind, Reply};
use weighing::weighing::Weighing;

/// Opens a fit over a weighing, with the limit of spans that the digits write.
pub fn open<W: Weighing>(weighing: W, limit: &[u8]) -> Fit<W>
    ensures value { ByNumber limit.now (λ k. Opens W.Weighing weighing k result) }
{
    Fit::open(weighing, value_of(limit) as usize)
}

/// The reply to the first line, with the limit as the fit holds it.
pub fn opened<W: Weighing>(kind: Kind, fit: &Fit<W>) -> Reply<'static>
    ensures value { reply_text result ≡ open_line kind fit.now.limit }
{
    Reply::Opened {
        kind,
        limit: fit.limit(),
    }
}
