// Reading the ranges of an interval box.
ghost use Rattle.std.specs.Prelude.{◌≡◌, ◌^◌, ◌<◌, ◌&&◌, pos, neg_ℤ, ◌≤ℤ◌, slice_index_or};
ghost use Rattle.interface.specs.Points.{values_of};
ghost use Rattle.halving.specs.First.{every};
ghost use Rattle.halving.specs.Halvings.{width};
ghost use Rattle.intervals.specs.Boxes.{low_at, high_at, least, greatest, widths_of, on_line};
ghost use Rattle.intervals.specs.Answers.{all_lows, in_range};

use super::IntervalBox;
use interface::node::opposite;
use interface::point::Point;
use std::array;

impl IntervalBox {
    pub(crate) fn low(&self, k: u8) -> i32
        ensures { result ≡ low_at self.now k }
    {
        self.spans.get(k as usize).map_or(0, |span| span.low)
    }

    pub(crate) fn high(&self, k: u8) -> i32
        ensures { result ≡ high_at self.now k }
    {
        self.spans.get(k as usize).map_or(0, |span| span.high)
    }

    // The low at a place of the array, apart from `lows`, so that a wrong one is refused at the code.
    fn low_of(&self, k: usize) -> i32
        requires { k < 8 }
        ensures { result ≡ low_at self.now k }
    {
        self.low(k as u8)
    }

    pub(crate) fn lows(&self) -> [i32; 8]
        ensures { result ≡ all_lows self.now }
    {
        array::from_fn(|k| self.low_of(k))
    }

    // The least v(p).
    pub(crate) fn least(&self, p: u8) -> i64
        ensures value { result ≡ least self.now p }
        ensures low_bound { neg_ℤ (pos (2 ^ 31)) ≤ℤ result }
        ensures high_bound { result ≤ℤ pos (2 ^ 31) }
    {
        if p % 2 == 0 {
            i64::from(self.low(p / 2))
        } else {
            -i64::from(self.high(p / 2))
        }
    }

    // The greatest v(p): the opposite node stands for the negative.
    pub(crate) fn greatest(&self, p: u8) -> i64
        ensures value { result ≡ greatest self.now p }
        ensures low_bound { neg_ℤ (pos (2 ^ 31)) ≤ℤ result }
        ensures high_bound { result ≤ℤ pos (2 ^ 31) }
    {
        -self.least(opposite(p))
    }

    // Whether node p stands for a setting of the line, or its negative.
    pub(crate) fn on_line(&self, p: u8) -> bool
        ensures { result ≡ on_line self.now p }
    {
        (p as u16) < 2 * self.n as u16
    }

    // Whether z lies in the range of setting k.
    fn is_in_range(&self, k: u8, z: i32) -> bool
        ensures { result ≡ in_range self.now k z }
    {
        (self.low(k)..=self.high(k)).contains(&z)
    }

    // Whether each value of the point lies in its range.
    pub(crate) fn inside(&self, point: &Point) -> bool
        ensures { result ≡ every (λ k. in_range self.now k (slice_index_or (values_of point.now) k (pos 0))) self.now.n }
    {
        (0..self.n).all(|k| self.is_in_range(k, point.setting(k)))
    }

    // The width of setting k's range.
    fn width(&self, k: u8) -> u32
        ensures { result ≡ width (low_at self.now k) (high_at self.now k) }
    {
        self.high(k).abs_diff(self.low(k))
    }

    #[tactic(auto, unfolding(crate::specs::Boxes::widths_of))]
    pub(crate) fn widths(&self) -> [u32; 8]
        ensures { result ≡ widths_of self.now }
    {
        array::from_fn(|k| self.width(k as u8))
    }
}
