//! The farthest corners of a hull whose lower half is one parabola and whose upper half another.
use crate::bench::Task;
use hull::corner::Corner;
use hull::table::{Hull, MOST_CORNERS};
use refusal::Refusal;

/// Where the two parabolas have their heads.
const HEAD: i32 = 30_000;

#[derive(Drop)]
pub struct Lens {
    hull: Hull,
}

/// The corner at a place of the lens that has `half` corners on either parabola, counterclockwise.
// Saturating, since a plain square would ask each caller for a bound on both numbers.
fn corner_at(place: i32, half: i32) -> Corner {
    let lower = place < half;
    let along = if lower {
        place
    } else {
        half.saturating_mul(2)
            .saturating_sub(place)
            .saturating_sub(1)
    };
    let x = along.saturating_sub(half / 2);
    let rise = x.saturating_mul(x);
    let y = if lower {
        rise.saturating_sub(HEAD)
    } else {
        HEAD.saturating_sub(rise)
    };
    Corner { x, y }
}

impl Lens {
    /// `size` corners, at most 512, half of them on either parabola.
    pub fn new(size: usize) -> Result<Lens, Refusal> {
        let size = size.min(MOST_CORNERS);
        // an array and how much of it is meant: no task asks for memory, which it might not get
        let mut corners = [Corner { x: 0, y: 0 }; MOST_CORNERS];
        for (place, corner) in corners[..size].iter_mut().enumerate() {
            *corner = corner_at(place as i32, size as i32 / 2);
        }
        let mut hull = Hull::new();
        hull.set(&corners[..size])?;
        Ok(Lens { hull })
    }
}

impl Task for Lens {
    fn run(&self, answers: &mut [usize], work: &mut [usize]) -> Result<u64, Refusal> {
        self.hull.farthest(answers, work)
    }
}
