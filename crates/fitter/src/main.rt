//! Reads the lines of a session at the bench from standard input, and prints the reply to each.
#![tactic(auto)]

use reply::Reply;
use session::{Listener, conduct, fill};
use std::io;

/// What is past so many bytes is not read.
const MOST_INPUT: usize = 32_768;

#[derive(Drop)]
struct Printer {
    rt: HostRuntime,
}

impl Listener for Printer {
    // no contract can say what is printed
    ghost hears = { λ before text after. Unit {0} };

    fn hear(&mut self, reply: Reply<'_>) -> io::Result<()> {
        self.rt.println(reply)
    }
}

fn main(rt: HostRuntime) -> io::Result<()> {
    let mut buffer = [0u8; MOST_INPUT];
    let read = fill(&mut rt.stdin(), &mut buffer)?;
    let mut printer = Printer { rt };
    conduct(&buffer[..read], &mut printer)
}
