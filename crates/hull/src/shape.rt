//! The tests that corners must pass to be a hull, each in one pass over them.
ghost use Rattle.std.specs.Prelude.{IsTrue, ◌↔◌};
ghost use Rattle.hull.specs.Convex.{AllNear, AllLeft, Passes};

use crate::corner::Corner;

/// Whether all corners are near.
pub(crate) fn all_near(corners: &[Corner]) -> bool
    ensures decides { IsTrue result ↔ AllNear corners.now }
{
    corners.iter().all(|corner| corner.is_near())
}

/// Whether the last of three corners in a row passes the tests at it: from the first side, from the
/// first corner past the side before, and at the bend before.
fn passes(first: Corner, second: Corner, bend: &[Corner; 3]) -> bool
    ensures decides { IsTrue result ↔ Passes first second bend.now }
{
    let [before, last, next] = *bend;
    first.turns_left(second, next) && first.turns_left(last, next) && before.turns_left(last, next)
}

/// Whether every three corners with rising numbers turn left. Three tests at each corner decide it.
pub(crate) fn all_left(corners: &[Corner]) -> bool
    ensures decides { IsTrue result ↔ AllLeft corners.now }
{
    let [first, second, ..] = *corners else {
        return true;
    };
    corners
        .array_windows::<3>()
        .all(|bend| passes(first, second, bend))
}
