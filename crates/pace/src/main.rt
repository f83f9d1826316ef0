//! What calls cost as their subjects grow: entries read or spans weighed and, with the word `time`, nanoseconds.
#![tactic(auto)]

use crate::bench::Bench;
use crate::hulls::Lens;
use crate::searches::Square;
use crate::settles::Lead;
use std::env;

mod bench;
mod hulls;
mod searches;
mod settles;

const SIZES: [usize; 4] = [64, 128, 256, 512];

fn show_all(bench: &mut Bench<'_>) -> anyhow::Result<()> {
    for size in SIZES {
        bench.show("search of rows and columns", size, &Square { size })?;
    }
    for size in SIZES {
        bench.show("farthest of corners", size, &Lens::new(size)?)?;
    }
    for size in SIZES {
        let lead = Lead {
            settled: 0,
            held: size as u32,
        };
        bench.show("settle of readings", size, &lead)?;
    }
    for size in SIZES {
        let lead = Lead {
            settled: size as u32 - 1,
            held: size as u32,
        };
        bench.show("settle of one more after readings", size - 1, &lead)?;
    }
    Ok(())
}

fn main(rt: HostRuntime) -> anyhow::Result<()> {
    let timed = env::args(&rt)?.any(|word| word.as_str() == "time");
    show_all(&mut Bench::new(&rt, timed))
}
