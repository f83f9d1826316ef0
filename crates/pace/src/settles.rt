//! A settle of a lead whose loss rises by a little more at every reading, into as many spans as there can be.
use crate::bench::Task;
use division::table::{MOST_READINGS, MOST_SPANS};
use fit::fit::Fit;
use refusal::Refusal;
use rising::ceiling::Ceiling;
use std::ops::Range;
use weighing::weighing::Weighing;

/// A lead that holds so many readings, of which the first ones are settled already.
#[derive(Drop)]
pub struct Lead {
    pub settled: u32,
    pub held: u32,
}

fn take_all(fit: &mut Fit<Ceiling>, places: Range<u32>) -> Result<(), Refusal> {
    for place in places {
        let place = place.min(MOST_READINGS as u32);
        fit.take(place * place / 5)?;
    }
    Ok(())
}

impl Task for Lead {
    fn run(&self, answers: &mut [usize], work: &mut [usize]) -> Result<u64, Refusal> {
        let mut fit = Fit::open(Ceiling::new(), MOST_SPANS);
        take_all(&mut fit, 0..self.settled)?;
        if self.settled > 0 {
            fit.settle(answers, work)?;
        }
        take_all(&mut fit, self.settled..self.held)?;
        fit.settle(answers, work)
    }
}
