//! Why a call is refused: one closed list for the whole bench, with the number that each refusal goes by.
#![tactic(auto)]

ghost use Rattle.std.specs.Prelude.{◌≡◌, Some};
ghost use Rattle.refusal.specs.Numbers.{number};
ghost use Rattle.refusal.specs.Meanings.{meaning};

use std::error::Error;
use std::fmt;

/// Why a call was refused. A refused call changes nothing.
#[derive(Clone, Copy, PartialEq, Eq, Debug)]
pub enum Refusal {
    Full = 1,
    ReadingTooGreat = 2,
    ReadingFalls = 3,
    Misfit = 4,
    NothingHeld = 5,
    WrongSpans = 6,
    NotSettled = 7,
    NoSuchPlace = 8,
    ListTooShort = 9,
    WrongStrip = 10,
    WrongCorners = 11,
    CornerTooFar = 12,
    NotConvex = 13,
    NotUnderstood = 14,
}

impl Refusal {
    /// The number that the refusal goes by.
    pub fn number(self) -> u8
        ensures value { result ≡ number self }
    {
        self as u8
    }

    /// What the refusal means, in a few words.
    pub fn meaning(self) -> &'static str
        ensures value { result.now ≡ meaning self }
    {
        match self {
            Refusal::Full => "full",
            Refusal::ReadingTooGreat => "reading too great",
            Refusal::ReadingFalls => "reading falls",
            Refusal::Misfit => "misfit",
            Refusal::NothingHeld => "nothing held",
            Refusal::WrongSpans => "wrong number of spans",
            Refusal::NotSettled => "not settled",
            Refusal::NoSuchPlace => "no such place",
            Refusal::ListTooShort => "list too short",
            Refusal::WrongStrip => "wrong strip",
            Refusal::WrongCorners => "wrong number of corners",
            Refusal::CornerTooFar => "corner too far out",
            Refusal::NotConvex => "not strictly convex",
            Refusal::NotUnderstood => "line not understood",
        }
    }
}

impl fmt::Display for Refusal {
    ghost output = { λ why. Some (meaning why) };

    fn fmt<W: fmt::Write>(&self, f: &mut fmt::Formatter<W>) -> fmt::Result {
        f.write_str(self.meaning())
    }
}

impl Error for Refusal {}
