//! A search of a square sheet, each entry of which is the squared gap of its row and its column.
use crate::bench::Task;
use refusal::Refusal;
use search::search;
use search::strip::Strip;
use search_tests::blocks::{Blocks, Shape};

#[derive(Drop)]
pub struct Square {
    pub size: usize,
}

impl Task for Square {
    fn run(&self, answers: &mut [usize], work: &mut [usize]) -> Result<u64, Refusal> {
        let size = self.size;
        let shape = Shape {
            rows: size,
            columns: size,
            tall: 1,
            wide: 1,
        };
        let mut sheet = Blocks::new(shape, 0);
        let whole = Strip {
            row: 0,
            rows: size,
            column: 0,
            columns: size,
        };
        search(&mut sheet, whole, answers, work)
    }
}
