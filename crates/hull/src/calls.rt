//! What can be asked of a hull, and how it is set.
ghost use Rattle.std.specs.Prelude.{◌≡◌, ◌<◌, ◌≤◌, length, Ok, Err};
ghost use Rattle.refusal.specs.Rules.{Broken, NoOther};
ghost use Rattle.hull.specs.Plane.{corner_at, distance};
ghost use Rattle.hull.specs.Convex.{Enough, AllNear, AllLeft};
ghost use Rattle.hull.specs.Hulls.{corners_of, triangle, SetTo, Numbered};

use crate::corner::Corner;
use crate::shape::{all_left, all_near};
use crate::table::{Hull, MOST_CORNERS};
use refusal::Refusal;

/// The fewest corners that a hull holds.
const FEWEST_CORNERS: usize = 3;

const ORIGIN: Corner = Corner { x: 0, y: 0 };

impl Hull {
    /// The triangle (0,0), (1,0), (0,1).
    pub fn new() -> Hull
        ensures value { corners_of result ≡ triangle }
    {
        Hull::of(&[ORIGIN, Corner { x: 1, y: 0 }, Corner { x: 0, y: 1 }])
    }

    /// The hull of corners that are known to make one.
    fn of(corners: &[Corner]) -> Hull
        requires { Enough corners.now × AllNear corners.now × AllLeft corners.now }
        ensures value { corners_of result ≡ corners.now }
    {
        let len = corners.len();
        let mut table = [ORIGIN; MOST_CORNERS];
        table[..len].copy_from_slice(corners);
        Hull { table, len }
    }

    /// Takes the corners given, all or none, and tells how many they are.
    pub fn set(&mut self, corners: &[Corner]) -> Result<usize, Refusal>
        ensures answer { elim result [
          | Ok n ↦ SetTo corners.now self.new n
          | Err why ↦ Broken (Enough corners.now) 11 (Broken (AllNear corners.now) 12
              (Broken (AllLeft corners.now) 13 NoOther)) why × (self.new ≡ self.old)
        ] }
    {
        if !(FEWEST_CORNERS..=MOST_CORNERS).contains(&corners.len()) {
            return Err(Refusal::WrongCorners);
        }
        if !all_near(corners) {
            return Err(Refusal::CornerTooFar);
        }
        if !all_left(corners) {
            return Err(Refusal::NotConvex);
        }
        *self = Hull::of(corners);
        Ok(corners.len())
    }

    /// How many corners there are.
    pub fn count(&self) -> usize
        ensures value { result ≡ length (corners_of self.now) }
    {
        self.len
    }

    /// The corner numbered i.
    pub fn corner(&self, i: usize) -> Result<Corner, Refusal>
        ensures answer { elim result [
          | Ok c ↦ Numbered self.now i × (c ≡ corner_at (corners_of self.now) i)
          | Err why ↦ Broken (Numbered self.now i) 8 NoOther why
        ] }
    {
        self.corners().get(i).copied().ok_or(Refusal::NoSuchPlace)
    }

    /// The squared distance of the corners numbered i and j.
    pub fn swing(&self, i: usize, j: usize) -> Result<i64, Refusal>
        ensures answer { elim result [
          | Ok d ↦ Numbered self.now i × Numbered self.now j
              × (d ≡ distance (corner_at (corners_of self.now) i) (corner_at (corners_of self.now) j))
          | Err why ↦ Broken (Numbered self.now i × Numbered self.now j) 8 NoOther why
        ] }
    {
        if i < self.count() && j < self.count() {
            Ok(self.apart(i, j))
        } else {
            Err(Refusal::NoSuchPlace)
        }
    }

    /// The corners.
    fn corners(&self) -> &[Corner]
        ensures value { result.now ≡ corners_of self.now }
    {
        &self.table[..self.count()]
    }

    /// The squared distance of the corners numbered i and j, where it is known that there are both.
    pub(crate) fn apart(&self, i: usize, j: usize) -> i64
        requires { Numbered self.now i × Numbered self.now j }
        ensures value { result ≡ distance (corner_at (corners_of self.now) i) (corner_at (corners_of self.now) j) }
    {
        let corners = self.corners();
        corners[i].distance(corners[j]) as i64
    }
}
