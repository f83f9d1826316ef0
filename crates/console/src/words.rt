//! The words of a line, told apart byte by byte, and the numbers that follow them.
ghost use Rattle.std.specs.Prelude.{◌≡◌, ◌++◌, codes};
ghost use Rattle.console.specs.Numerals.{Numeral};
ghost use Rattle.console.specs.Grammar.{Says, Opens, ReadNumeral, ReadTwo, Understood, told, told_opening};

use crate::command::{Command, Opening};
use crate::digits::is_numeral;
use crate::split::split_once;
use refusal::Refusal;

// The bytes themselves, where they write a number.
fn numeral(bytes: &[u8]) -> Result<&[u8], Refusal>
    ensures { ReadNumeral bytes.now result }
{
    if is_numeral(bytes) {
        Ok(bytes)
    } else {
        Err(Refusal::NotUnderstood)
    }
}

pub(crate) fn command_of(line: &[u8]) -> Result<Command<'_>, Refusal>
    ensures { Understood told Says line.now result }
{
    match line {
        [b't', b'a', b'k', b'e', b' ', number @ ..] => Ok(Command::Take(numeral(number)?)),
        b"drop" => Ok(Command::Drop),
        b"wipe" => Ok(Command::Wipe),
        b"settle" => Ok(Command::Settle),
        [b'd', b'i', b'v', b'i', b'd', b'e', b' ', number @ ..] => Ok(Command::Divide(numeral(
            number,
        )?)),
        [b'e', b'x', b'a', b'c', b't', b' ', number @ ..] => Ok(Command::Exact(numeral(number)?)),
        _ => Err(Refusal::NotUnderstood),
    }
}

#[tactic(auto, using(crate::proofs::Grammar::front_is, crate::proofs::Grammar::behind_is, crate::proofs::Grammar::no_whole))]
fn two_numbers(words: &[u8]) -> Result<(&[u8], &[u8]), Refusal>
    ensures { ReadTwo words.now result }
{
    let (first, second) = split_once(words, b' ').ok_or(Refusal::NotUnderstood)?;
    Ok((numeral(first)?, numeral(second)?))
}

pub(crate) fn opening_of(line: &[u8]) -> Result<Opening<'_>, Refusal>
    ensures { Understood told_opening Opens line.now result }
{
    let [b'o', b'p', b'e', b'n', b' ', kind @ ..] = line else {
        return Err(Refusal::NotUnderstood);
    };
    match kind {
        [b'c', b'e', b'i', b'l', b'i', b'n', b'g', b' ', limit @ ..] => {
            Ok(Opening::Ceiling {
                limit: numeral(limit)?,
            })
        }
        [b'm', b'i', b'd', b'd', b'l', b'e', b' ', limit @ ..] => Ok(Opening::Middle {
            limit: numeral(limit)?,
        }),
        [b'e', b'v', b'e', b'n', b' ', numbers @ ..] => {
            let (length, limit) = two_numbers(numbers)?;
            Ok(Opening::Even { length, limit })
        }
        _ => Err(Refusal::NotUnderstood),
    }
}
