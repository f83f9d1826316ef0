//! A corner, and what two or three corners make: a squared distance and a turn.
ghost use Rattle.std.specs.Prelude.{◌≡◌, ◌<◌, ◌^◌, ◌-ℤ◌, ◌*ℤ◌, unsigned_abs, IsTrue, ◌↔◌};
ghost use Rattle.hull.specs.Plane.{Near, Left, turn, distance};

/// The farthest that a coordinate may lie from 0.
const FARTHEST_OUT: u32 = 30_000;

/// A corner of a hull.
#[derive(Clone, Copy, PartialEq, Eq, Debug)]
pub struct Corner {
    pub x: i32,
    pub y: i32,
}

/// The product of two 64-bit numbers.
// wide at this step alone: a product of 128-bit numbers takes three of 64 bits
#[tactic(auto, using(crate::proofs::Gaps::wide_product_fits))]
fn product(a: i64, b: i64) -> i128
    ensures value { result ≡ a *ℤ b }
{
    i128::from(a) * i128::from(b)
}

impl Corner {
    /// Whether both coordinates are from -30,000 to 30,000.
    pub(crate) fn is_near(self) -> bool
        ensures decides { IsTrue result ↔ Near self }
    {
        self.x.unsigned_abs() <= FARTHEST_OUT && self.y.unsigned_abs() <= FARTHEST_OUT
    }

    /// How far this corner lies past o, along x and along y.
    fn past(self, o: Corner) -> (i64, i64)
        ensures value { (result.0 ≡ self.x -ℤ o.x) × (result.1 ≡ self.y -ℤ o.y) }
        ensures small { (unsigned_abs result.0 < 2 ^ 32) × (unsigned_abs result.1 < 2 ^ 32) }
    {
        (
            i64::from(self.x) - i64::from(o.x),
            i64::from(self.y) - i64::from(o.y),
        )
    }

    /// The squared distance to q.
    pub(crate) fn distance(self, q: Corner) -> i128
        ensures value { result ≡ distance self q }
    {
        let (x, y) = self.past(q);
        product(x, x) + product(y, y)
    }

    /// Twice the signed area of the triangle with p and q: positive where the three turn left.
    fn turn(self, p: Corner, q: Corner) -> i128
        ensures value { result ≡ turn self p q }
    {
        let (px, py) = p.past(self);
        let (qx, qy) = q.past(self);
        product(px, qy) - product(py, qx)
    }

    /// Whether the three turn left.
    pub(crate) fn turns_left(self, p: Corner, q: Corner) -> bool
        ensures decides { IsTrue result ↔ Left self p q }
    {
        0 < self.turn(p, q)
    }
}
