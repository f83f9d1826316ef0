//! What each line is answered with, as text.
#![tactic(auto)]

ghost use Rattle.std.specs.Prelude.{Some};
ghost use Rattle.reply.specs.Replies.{kind_text, ends_text, reply_text};

use refusal::Refusal;
use std::fmt;

/// The kind of weighing that a session is opened with; an even one with its nominal length.
#[derive(Clone, Copy, Drop)]
pub enum Kind {
    Ceiling,
    Middle,
    Even { length: u32 },
}

impl fmt::Display for Kind {
    ghost output = { λ kind. Some (kind_text kind) };

    fn fmt<W: fmt::Write>(&self, f: &mut fmt::Formatter<W>) -> fmt::Result {
        match self {
            Kind::Ceiling => write!(f, "ceiling"),
            Kind::Middle => write!(f, "middle"),
            Kind::Even { length } => write!(f, "even {length}"),
        }
    }
}

#[derive(Clone, Copy, Drop)]
struct Ends<'a>(&'a [usize]);

impl fmt::Display for Ends<'_> {
    ghost output = { λ list. Some (ends_text list.0.now) };

    fn fmt<W: fmt::Write>(&self, f: &mut fmt::Formatter<W>) -> fmt::Result {
        for end in self.0 {
            write!(f, " {end}")?;
        }
        Ok(())
    }
}

/// The reply to a line.
#[derive(Clone, Copy, Drop)]
pub enum Reply<'a> {
    /// A fit is opened, over this kind of weighing and with this limit of spans.
    Opened { kind: Kind, limit: usize },
    /// So many readings are held.
    Held(usize),
    /// So many readings are held and settled.
    Settled(usize),
    /// The best division: its weight and the ends of its spans.
    Divided { weight: u64, ends: &'a [usize] },
    /// The least weight of so many spans.
    Exact { spans: usize, weight: u64 },
    Refused(Refusal),
}

impl fmt::Display for Reply<'_> {
    ghost output = { λ reply. Some (reply_text reply) };

    fn fmt<W: fmt::Write>(&self, f: &mut fmt::Formatter<W>) -> fmt::Result {
        match *self {
            Reply::Opened { kind, limit } => write!(f, "open {kind} {limit}"),
            Reply::Held(count) => write!(f, "held {count}"),
            Reply::Settled(count) => write!(f, "settled {count}"),
            Reply::Divided { weight, ends } => {
                write!(f, "spans {} weight {weight} ends{}", ends.len(), Ends(ends))
            }
            Reply::Exact { spans, weight } => write!(f, "exact {spans} weight {weight}"),
            Reply::Refused(why) => write!(f, "refused {}", why.number()),
        }
    }
}
