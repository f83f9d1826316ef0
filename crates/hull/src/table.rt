//! What a hull holds, and what always holds of it.
ghost use Rattle.std.specs.Prelude.{◌≡◌, length, take};
ghost use Rattle.hull.specs.Convex.{Enough, AllNear, AllLeft};

use crate::corner::Corner;

/// The most corners that a hull holds.
pub const MOST_CORNERS: usize = 512;

/// A strictly convex polygon: the first `len` corners of its table, counterclockwise. Every three
/// of them with rising numbers turn left.
#[derive(Clone, Copy)]
pub struct Hull {
    // An array and a length, since a hull is Copy and an ArrayVec is not, and for the same reason it has no model: that of a
    // Copy type may forget no field. `set` writes both at once.
    pub(crate) table: [Corner; MOST_CORNERS],
    pub(crate) len: usize,
    ghost counted: { length (take len table) ≡ len },
    ghost enough: { Enough (take len table) },
    ghost near: { AllNear (take len table) },
    ghost left: { AllLeft (take len table) },
}
