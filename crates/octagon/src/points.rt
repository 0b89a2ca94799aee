// The points of an octagon: whether it holds one, and the least that it holds.
ghost use Rattle.std.specs.Prelude.{◌≡◌, ◌*◌, ◌<◌, ◌≤◌, ◌+◌, ◌+ℤ◌, ◌-ℤ◌, ◌^◌, int_le, unsigned_abs};
ghost use Rattle.interface.specs.Nodes.{value};
ghost use Rattle.interface.specs.Points.{values_of};
ghost use Rattle.octagon_theory.specs.Matrices.{next_value};
ghost use Rattle.octagon.specs.Entries.{at};
ghost use Rattle.octagon.specs.Octagons.{row_under, all_under, holds_at, narrow, offered, offer_of};
ghost use Rattle.octagon.specs.Ranges.{low_at};

use super::lowering::half_of;
use super::matrix::Octagon;
use interface::point::Point;

// v(p) of the values, by its place: `Point::at` tests each node that it is asked for, and `holds` asks for all pairs.
fn value_at(values: &[i32; 8], p: u8) -> i64
    requires { p < 16 }
    ensures value { result ≡ value values.now p }
    ensures bound { unsigned_abs result ≤ 2 ^ 31 }
{
    let v = i64::from(values[p as usize / 2]);
    if p % 2 == 0 { v } else { -v }
}

impl Octagon {
    // Whether v(p) + v(q) of the values is at most the limit (p, q). That a node is below 16 and n at most 8 the functions
    // here ask: types for them would be made and taken apart at each call.
    fn is_under(&self, values: &[i32; 8], p: u8, q: u8) -> bool
        requires { (p < 16) × (q < 16) }
        ensures { result ≡ int_le (value values.now p +ℤ value values.now q) (at self.now.limits p q) }
    {
        value_at(values, p) + value_at(values, q)
            <= i64::from(self.limits[16 * p as usize + q as usize])
    }

    // Whether the values keep the limits of row p.
    fn is_row_under(&self, values: &[i32; 8], p: u8) -> bool
        requires { (self.now.n ≤ 8) × (p < 16) }
        ensures { result ≡ row_under self.now.limits values.now (2 * self.now.n) p }
    {
        (0..2 * self.n).all(|q| self.is_under(values, p, q))
    }

    // Whether the point keeps every limit.
    fn is_above(&self, point: &Point) -> bool
        requires { (self.now.n ≤ 8) × (self.now.n ≤ point.now.n) }
        ensures { result ≡ all_under self.now.limits (values_of point.now) (2 * self.now.n) }
    {
        (0..2 * self.n).all(|p| self.is_row_under(&point.values, p))
    }

    // Whether the octagon holds the point. `point.n.min(8)` stands for `point.settings()`: the proof needs that the array has
    // eight places, which a read of a field of the point tells, and the contract of `settings` does not.
    pub(crate) fn holds_point(&self, point: &Point) -> bool
        ensures { result ≡ holds_at self.now (values_of point.now) }
    {
        !self.void && point.n.min(8) == self.n && self.is_above(point)
    }

    // The lower bound that node p, of a setting of the point, puts on the next setting.
    fn bound_by(&self, point: &Point, p: u8) -> i64
        requires { (point.now.n < 8) × (p < 16) }
        ensures { result ≡ (value point.now.values p -ℤ at self.now.limits p (2 * point.now.n + 1)) }
    {
        let next = 2 * point.n as usize + 1;
        value_at(&point.values, p) - i64::from(self.limits[16 * p as usize + next])
    }

    // The lower bound of setting k alone.
    fn own_bound(&self, k: u8) -> i64
        requires { k < 8 }
        ensures { result ≡ low_at (at self.now.limits) k }
    {
        let odd = 2 * k as usize + 1;
        -i64::from(half_of(self.limits[16 * odd + odd]))
    }

    // The least value of the next setting, after those of the point: the greatest of its lower bounds.
    fn next_value(&self, point: &Point) -> i32
        requires { point.now.n < 8 }
        ensures { result ≡ narrow (next_value (at self.now.limits) (values_of point.now)) }
    {
        let bounds = (0..2 * point.n).map(|p| self.bound_by(point, p));
        i32::try_from(bounds.fold(self.own_bound(point.n), i64::max)).unwrap_or(0)
    }

    // The least values of the first m settings, and 0 past them.
    fn least_values(&self, m: u8) -> [i32; 8]
        requires { m ≤ 8 }
        ensures { result ≡ offered self.now.limits m }
    {
        let mut point = Point {
            n: 0,
            values: [0; 8],
        };
        // one after the other: each value rests on those before it
        for k in 0..m {
            point.values[k as usize] = self.next_value(&point);
            point.n = k + 1;
        }
        point.values
    }

    pub(crate) fn least_point(&self) -> Option<Point>
        ensures { result ≡ offer_of self.now }
    {
        if self.void {
            return None;
        }
        Some(Point {
            n: self.n,
            values: self.least_values(self.n.min(8)),
        })
    }
}
