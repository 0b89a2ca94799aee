// How an octagon is split, and how often it can be: its ranges alone decide.
ghost use Rattle.std.specs.Prelude.{◌≡◌, ◌+◌, ◌*◌, ◌<◌, pos, neg_ℤ, ◌≤ℤ◌};
ghost use Rattle.halving.specs.Halvings.{halvings_of};
ghost use Rattle.octagon.specs.Entries.{at};
ghost use Rattle.octagon.specs.Octagons.{cut_to, lower_of, upper_of};
ghost use Rattle.octagon.specs.Ranges.{low_at, high_at, width_at, widths, extent_by, is_open, widest_at, middle_at, up_to, from_next};

use super::lowering::half_of;
use super::matrix::Octagon;
use halving::{halvings, single, widest};
use interface::extent::Extent;
use std::array;

// Five contracts here say that a value is within 2^30 of 0, as half a limit of 32 bits is; the ends of `low` are those of
// the others negated. A type for such values would be made and taken apart at each call.

// The bound of the cut to values up to m.
fn below_middle(m: i32) -> i32
    requires { (neg_ℤ (pos 1073741824) ≤ℤ m) × (m ≤ℤ pos 1073741823) }
    ensures { result ≡ up_to m }
{
    2 * m
}

// The bound of the cut to values from m + 1.
fn above_middle(m: i32) -> i32
    requires { (neg_ℤ (pos 1073741824) ≤ℤ m) × (m ≤ℤ pos 1073741823) }
    ensures { result ≡ from_next m }
{
    -2 * (m + 1)
}

impl Octagon {
    // `high` and `low` stand in a reading too: to make one first would copy all limits.
    // The greatest value of setting k. That k is below 8 each of the four asks: a type for it would be made at each call.
    fn high(&self, k: u8) -> i32
        requires { k < 8 }
        ensures value { result ≡ high_at (at self.now.limits) k }
        ensures bound { (neg_ℤ (pos 1073741824) ≤ℤ result) × (result ≤ℤ pos 1073741823) }
    {
        half_of(self.limit_of(2 * k, 2 * k))
    }

    // The least value of setting k.
    fn low(&self, k: u8) -> i32
        requires { k < 8 }
        ensures value { result ≡ low_at (at self.now.limits) k }
        ensures bound { (neg_ℤ (pos 1073741823) ≤ℤ result) × (result ≤ℤ pos 1073741824) }
    {
        -half_of(self.limit_of(2 * k + 1, 2 * k + 1))
    }

    // This and `widths` stand in the interval box too: a trait for both would state the ranges and their bounds again.
    fn width(&self, k: u8) -> u32
        requires { k < 8 }
        ensures { result ≡ width_at (at self.now.limits) k }
    {
        self.high(k).abs_diff(self.low(k))
    }

    fn widths(&self) -> [u32; 8]
        ensures { result ≡ widths (at self.now.limits) }
    {
        array::from_fn(|k| self.width(k as u8))
    }

    // The middle of a range, rounded down.
    fn middle(&self, k: u8) -> i32
        requires { k < 8 }
        ensures value { result ≡ middle_at (at self.now.limits) k }
        ensures bound { (neg_ℤ (pos 1073741824) ≤ℤ result) × (result ≤ℤ pos 1073741823) }
    {
        half_of(self.low(k) + self.high(k))
    }

    fn is_open(&self) -> bool
        ensures { result ≡ is_open self.now.void (at self.now.limits) }
    {
        !self.void && !single(&self.widths())
    }

    fn widest_setting(&self) -> u8
        ensures value { result ≡ widest_at (at self.now.limits) }
        ensures bound { result < 8 }
    {
        widest(&self.widths()) as u8
    }

    // As in the interval box: a trait for both would state the flag and the widths again.
    pub(crate) fn extent_of(&self) -> Extent
        ensures { result ≡ extent_by self.now.void (at self.now.limits) }
    {
        if self.void {
            Extent::Void
        } else if single(&self.widths()) {
            Extent::Lone
        } else {
            Extent::Open
        }
    }

    fn with_cut(&self, p: u8, q: u8, c: i32) -> Octagon
        ensures { result ≡ cut_to self.now p q c }
    {
        let mut part = *self;
        part.cut_by(p, q, c);
        part
    }

    // The values up to the middle of the widest range, and those above it; an octagon that is not open is both parts.
    pub(crate) fn parts(&self) -> (Octagon, Octagon)
        ensures { result ≡ (lower_of self.now, upper_of self.now) }
    {
        if !self.is_open() {
            return (*self, *self);
        }
        let k = self.widest_setting();
        let m = self.middle(k);
        (
            self.with_cut(2 * k, 2 * k, below_middle(m)),
            self.with_cut(2 * k + 1, 2 * k + 1, above_middle(m)),
        )
    }

    pub(crate) fn count_halvings(&self) -> u32
        ensures { result ≡ halvings_of (widths (at self.now.limits)) }
    {
        halvings(&self.widths())
    }
}
