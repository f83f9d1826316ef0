//! A whole session: the first line opens a fit, and each line after it is performed, until no bytes are left.
ghost use Rattle.std.specs.Prelude.{◌≡◌, ℕ, ◌≤◌, length, IfOk, OnOk};
ghost use Rattle.session.specs.Courses.{WholeCourse, WholeSession};
ghost use Rattle.console.specs.Grammar.{told_opening};
ghost use Rattle.session.specs.Conducts.{SessionOver, Conducted};

use crate::first::{open, opened};
use crate::later::{perform, refused};
use crate::listener::Listener;
use console::{Opening, Reader, value_of};
use even::Even;
use fit::fit::Fit;
use reply::Kind;
use rising::ceiling::Ceiling;
use rising::middle::Middle;
use std::io;
use std::io::Read;
use weighing::verdict::MOST_READINGS;
use weighing::weighing::Weighing;

/// Four places of work for each reading.
const WORK: usize = 4 * MOST_READINGS;

/// Fills the buffer from the front, until it is full or the input ends, and tells how far.
pub fn fill<R: Read>(from: &mut R, buffer: &mut [u8]) -> io::Result<usize>
    ensures bound { IfOk result (λ n. n ≤ length buffer.new) }
{
    let mut at = 0;
    // the library reads to the end only into a list on the heap, and exactly only what is there to the last byte
    while at < buffer.len() {
        let got = from.read(&mut buffer[at..])?;
        if got == 0 {
            break;
        }
        at += got;
    }
    Ok(at)
}

/// Answers the lines that are left, each as a call of the fit, and lets the listener hear a reply to each.
// `ends` and `work` stay apart: in a struct of two `&mut` each clause would also say that both keep their references.
// Reader and listener likewise.
pub fn answer_lines<W: Weighing, L: Listener>(
    reader: &mut Reader<'_>,
    fit: &mut Fit<W>,
    ends: &mut [usize],
    work: &mut [usize],
    listener: &mut L,
) -> io::Result<()>
    ensures heard { OnOk result (WholeCourse W.Weighing L.Listener.hears reader.old.input.now reader.old.place fit.old fit.new listener.old listener.new) }
{
    while let Some(line) = reader.next_line() {
        // each arm has its own `hear`: the borrow checker's proofs do not cover one reply of two lifetimes
        match line {
            Ok(command) => listener.hear(perform(fit, command, ends, work))?,
            Err(why) => listener.hear(refused(why))?,
        }
    }
    Ok(())
}

/// Opens a fit, lets the listener hear so, and answers the lines that are left.
pub fn talk<W: Weighing + Drop, L: Listener>(
    reader: &mut Reader<'_>,
    kind: Kind,
    weighing: W,
    limit: &[u8],
    listener: &mut L,
) -> io::Result<()>
    ensures heard { OnOk result (WholeSession W.Weighing L.Listener.hears reader.old.input.now reader.old.place kind weighing limit.now listener.old listener.new) }
{
    let mut fit = open(weighing, limit);
    listener.hear(opened(kind, &fit))?;
    let mut ends = [0; MOST_READINGS];
    let mut work = [0; WORK];
    answer_lines(reader, &mut fit, &mut ends, &mut work, listener)
}

/// Has the session that the first line opens: over a new weighing of the kind that it names.
fn begin<L: Listener>(
    reader: &mut Reader<'_>,
    opening: Opening<'_>,
    listener: &mut L,
) -> io::Result<()>
    ensures heard { OnOk result (SessionOver L.Listener.hears reader.old.input.now reader.old.place listener.old listener.new (told_opening opening.entry)) }
{
    match opening {
        Opening::Ceiling { limit } => talk(reader, Kind::Ceiling, Ceiling::new(), limit, listener),
        Opening::Middle { limit } => talk(reader, Kind::Middle, Middle::new(), limit, listener),
        Opening::Even { length, limit } => {
            let length = value_of(length);
            let even = Even::new(length as usize);
            talk(reader, Kind::Even { length }, even, limit, listener)
        }
    }
}

/// Goes through the lines of the input, and lets the listener hear a reply to each. A first line that opens nothing
/// is refused and ends the session.
pub fn conduct<L: Listener>(input: &[u8], listener: &mut L) -> io::Result<()>
    ensures heard { OnOk result (Conducted L.Listener.hears input.now listener.old listener.new) }
{
    let mut reader = Reader::new(input);
    match reader.next_opening() {
        Some(Ok(opening)) => begin(&mut reader, opening, listener),
        Some(Err(why)) => listener.hear(refused(why)),
        None => Ok(()),
    }
}
