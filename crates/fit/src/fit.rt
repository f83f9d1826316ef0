//! The fit: it owns a weighing, settles its readings and answers divisions of them.
ghost use Rattle.std.specs.Prelude.{◌≤◌};

use crate::rounds::Rounds;

mod calls;

/// A fit over a weighing: at most `limit` spans, and the readings below the settled `mark` are settled.
#[derive(Drop)]
pub struct Fit<W> {
    rounds: Rounds<W>,
    limit: usize,
    mark: usize,
    ghost limited: { (1 ≤ limit) × (limit ≤ 8) },
}
