//! What a fit takes at its edges: the greatest reading and the first too great, the last reading that it has room for and the next.
#![tactic(auto)]

use division::table::MOST_SPANS;
use fit::fit::Fit;
use refusal::Refusal;
use rising::ceiling::Ceiling;
use std::io;
use weighing::verdict::{GREATEST_READING, MOST_READINGS};
use weighing::weighing::Weighing;

/// Says how a take was answered.
fn say(rt: &HostRuntime, answer: Result<usize, Refusal>) -> io::Result<()> {
    match answer {
        Ok(held) => println!(rt; "taken, and {held} held"),
        Err(why) => println!(rt; "refused {}, {why}", why.number()),
    }
}

fn say_reading(rt: &HostRuntime, fit: &mut Fit<Ceiling>, reading: u32) -> io::Result<()> {
    print!(rt; "reading {reading}: ")?;
    say(rt, fit.take(reading))
}

fn say_one_more(rt: &HostRuntime, fit: &mut Fit<Ceiling>) -> io::Result<()> {
    let held = fit.held();
    print!(rt; "with {held} readings held, one more: ")?;
    say(rt, fit.take(GREATEST_READING))
}

fn main(rt: HostRuntime) -> io::Result<()> {
    let mut fit = Fit::open(Ceiling::new(), MOST_SPANS);
    say_reading(&rt, &mut fit, GREATEST_READING)?;
    say_reading(&rt, &mut fit, GREATEST_READING + 1)?;
    for _ in fit.held()..MOST_READINGS - 1 {
        let _ = fit.take(GREATEST_READING);
    }
    say_one_more(&rt, &mut fit)?;
    say_one_more(&rt, &mut fit)
}
