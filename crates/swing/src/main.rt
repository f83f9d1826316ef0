//! Reads the corners of a constellation, one `x y` a line, and tells how far a carrier swings between them.
#![tactic(auto)]

use corners::read;
use hull::corner::Corner;
use hull::table::{Hull, MOST_CORNERS};
use refusal::Refusal;
use std::io;
use std::io::ErrorKind;
use thiserror::Error;

/// Four places of work for each corner.
const WORK: usize = 4 * MOST_CORNERS;

/// Why not all is told.
#[derive(Debug, Drop, Error)]
enum Stop {
    #[error("refused {number}: {meaning}", number = .0.number(), meaning = .0.meaning())]
    Refused(#[from] Refusal),
    #[error("line {place}: refused {number}: {meaning}", number = .why.number(), meaning = .why.meaning())]
    Line { place: usize, why: Refusal },
    #[error(transparent)]
    Fault(#[from] io::Error),
}

/// The corner that a line of the input writes. A line that is no text writes none.
fn corner_of(line: io::Result<String>) -> io::Result<Result<Corner, Refusal>> {
    match line {
        Err(fault) if fault.kind() == ErrorKind::InvalidData => Ok(Err(Refusal::NotUnderstood)),
        line => Ok(read(line?.as_str())),
    }
}

/// The hull of the corners that the lines of the input write.
fn read_hull(rt: &HostRuntime) -> Result<Hull, Stop> {
    let mut corners: Vec<Corner> = Vec::new(rt.alloc());
    for (place, line) in rt.lines(rt.alloc()).enumerate() {
        let corner = corner_of(line)?.map_err(|why| Stop::Line { place, why })?;
        corners.push(corner).map_err(io::Error::from)?;
    }
    let mut hull = Hull::new();
    hull.set(&corners)?;
    Ok(hull)
}

/// Says of each corner which one is farthest, and how far, then the greatest swing and the entries read.
fn say_swings(rt: &HostRuntime) -> Result<(), Stop> {
    let hull = read_hull(rt)?;
    let mut farthest = [0; MOST_CORNERS];
    let mut work = [0; WORK];
    let read = hull.farthest(&mut farthest, &mut work)?;
    for (i, j) in farthest.iter().enumerate().take(hull.count()) {
        let d = hull.swing(i, *j)?;
        println!(rt; "corner {i}: farthest {j}, squared distance {d}")?;
    }
    println!(rt; "greatest swing: {}", hull.greatest_swing(&farthest)?)?;
    println!(rt; "entries read: {read}")?;
    Ok(())
}

fn main(rt: HostRuntime) -> io::Result<()> {
    match say_swings(&rt) {
        Ok(()) => Ok(()),
        Err(Stop::Fault(fault)) => Err(fault),
        Err(stop) => println!(rt; "{stop}"),
    }
}
