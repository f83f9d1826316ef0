//! Something whose cost is told and, with the word `time`, timed.
use division::table::MOST_READINGS;
use refusal::Refusal;
use std::time::Instant;

const RUNS: usize = 200;

/// Room for a row each of the largest fit; no other task has more.
const PLACES: usize = MOST_READINGS;

/// Four places of work for each row.
const WORK: usize = 4 * PLACES;

pub trait Task {
    /// Does it once, with the lists that it may use, and answers what it cost: entries read or spans weighed.
    fn run(&self, answers: &mut [usize], work: &mut [usize]) -> Result<u64, Refusal>;
}

/// Where tasks are run: the lists that they may use, and whether they are timed too.
#[derive(Drop)]
pub struct Bench<'a> {
    rt: &'a HostRuntime,
    timed: bool,
    answers: [usize; PLACES],
    work: [usize; WORK],
}

impl<'a> Bench<'a> {
    pub(crate) fn new(rt: &'a HostRuntime, timed: bool) -> Bench<'a> {
        Bench {
            rt,
            timed,
            answers: [0; PLACES],
            work: [0; WORK],
        }
    }

    fn run<T: Task>(&mut self, task: &T) -> Result<u64, Refusal> {
        task.run(&mut self.answers, &mut self.work)
    }

    /// The nanoseconds of the quickest of many runs.
    fn quickest<T: Task>(&mut self, task: &T) -> anyhow::Result<u128> {
        let mut least = u128::MAX;
        for _ in 0..RUNS {
            let start = Instant::now(self.rt)?;
            self.run(task)?;
            least = least.min(start.elapsed(self.rt)?.as_nanos());
        }
        Ok(least)
    }

    /// Prints what a task of this size costs.
    pub fn show<T: Task>(&mut self, name: &str, size: usize, task: &T) -> anyhow::Result<()> {
        let rt = self.rt;
        let cost = self.run(task)?;
        print!(rt; "{name} {size}: {cost}")?;
        if self.timed {
            print!(rt; ", {} ns", self.quickest(task)?)?;
        }
        println!(rt; "")?;
        Ok(())
    }
}
