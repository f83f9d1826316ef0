//! The input, read line by line.
ghost use Rattle.std.specs.Prelude.{◌≡◌, ℕ, ◌≤◌, length};
ghost use Rattle.console.specs.Grammar.{Says, Opens, Short, told, told_opening};
ghost use Rattle.console.specs.Lines.{BytesNext, Next};

use crate::command::{Command, Opening};
use crate::split::split_once;
use crate::words::{command_of, opening_of};
use refusal::Refusal;

const MOST_BYTES: usize = 80;

/// The bytes of a session and the place where the next line begins.
#[derive(Drop)]
pub struct Reader<'a> {
    input: &'a [u8],
    place: usize,
    ghost within: { place ≤ length input.now },
}

// Not an `Iterator`: the first line is read by other words than the later ones.
impl<'a> Reader<'a> {
    ghost use Rattle.console.specs.Passing.{Passed};

    /// A reader at the start of the input.
    pub fn new(input: &'a [u8]) -> Reader<'a>
        ensures input { result.input.now ≡ input.now }
        ensures place { result.place ≡ 0 }
    {
        Reader { input, place: 0 }
    }

    /// What the next line asks of the fit, or that it is not understood; none when no bytes are left.
    pub fn next_line(&mut self) -> Option<Result<Command<'a>, Refusal>>
        ensures passed { Passed self.old self.new }
        ensures answer { Next told (Short Says) self.old.input.now self.old.place result }
    {
        Some(self.pass_line()?.and_then(command_of))
    }

    /// What the next line opens, read as the first of a session, or that it is not understood; none when no bytes are left.
    pub fn next_opening(&mut self) -> Option<Result<Opening<'a>, Refusal>>
        ensures passed { Passed self.old self.new }
        ensures answer { Next told_opening (Short Opens) self.old.input.now self.old.place result }
    {
        Some(self.pass_line()?.and_then(opening_of))
    }

    fn pass_line(&mut self) -> Option<Result<&'a [u8], Refusal>>
        ensures passed { Passed self.old self.new }
        ensures answer { BytesNext self.old.input.now self.old.place result }
    {
        let rest = &self.input[self.place..];
        if rest.is_empty() {
            return None;
        }
        let (line, behind) = split_once(rest, b'\n').unwrap_or((rest, &[]));
        self.place = self.input.len() - behind.len();
        let short = line.len() <= MOST_BYTES;
        Some(short.then_some(line).ok_or(Refusal::NotUnderstood))
    }
}
