// The interval box as a shape.
ghost use Rattle.std.specs.Prelude.{◌≡◌, ◌^◌, ◌<◌, ◌||◌, pos, ◌+ℤ◌, ◌-ℤ◌, neg_ℤ, ◌≤ℤ◌};
ghost use Rattle.interface.specs.Points.{values_of};
ghost use Rattle.intervals.specs.Boxes.{least, greatest, bounded};
ghost use Rattle.intervals.specs.Answers.{home_spans, start_box, cut_box, closed, middle, limited, lower_box, upper_box, extent_box, limit_box, holds_box, offer_box, halvings_box};
ghost use Rattle.intervals.specs.Model.{box_model};
ghost use Rattle.intervals.specs.Laws.{box_laws};

use super::IntervalBox;
use halving::{halvings, single, widest};
use interface::cut::Cut;
use interface::extent::Extent;
use interface::home::{Home, Span};
use interface::node::opposite;
use interface::point::Point;
use interface::shape::Shape;
use std::array;

// The home's spans, and 0 past its settings. A frame and a region's ranges are filled so too, each from ends of its own.
fn spans_of(home: &Home) -> [Span; 8]
    ensures { result ≡ home_spans home.now }
{
    array::from_fn(|k| if k < home.n as usize {
        home.spans[k]
    } else {
        Span::default()
    })
}

// What c leaves of a sum of two values where the one is at least this much. It and `sum` are functions of their own, so that
// a wrong difference or sum is refused at the code.
fn rest(c: i32, least: i64) -> i64
    requires { (neg_ℤ (pos (2 ^ 31)) ≤ℤ least) × (least ≤ℤ pos (2 ^ 31)) }
    ensures value { result ≡ c -ℤ least }
    ensures low_bound { neg_ℤ (pos (2 ^ 33)) ≤ℤ result }
    ensures high_bound { result ≤ℤ pos (2 ^ 33) }
{
    i64::from(c) - least
}

impl IntervalBox {
    // Whether nothing is left to split.
    fn is_closed(&self) -> bool
        ensures { result ≡ closed self.now }
    {
        self.void || single(&self.widths())
    }

    // The middle of setting k's range, rounded down.
    fn middle_of(&self, k: u8) -> i64
        ensures value { result ≡ middle self.now k }
        ensures low_bound { neg_ℤ (pos (2 ^ 32)) ≤ℤ result }
        ensures high_bound { result ≤ℤ pos (2 ^ 32) }
    {
        (i64::from(self.low(k)) + i64::from(self.high(k))).div_euclid(2)
    }

    // With each of v(p) and v(q) at most c less the least of the other, as it was before.
    fn bounded_both(&self, p: u8, q: u8, c: i32) -> IntervalBox
        ensures { result ≡ bounded (bounded self.now p (c -ℤ least self.now q)) q (c -ℤ least self.now p) }
    {
        let most_p = rest(c, self.least(q));
        let most_q = rest(c, self.least(p));
        self.bounded(p, most_p).bounded(q, most_q)
    }

    // What a cut leaves of the box.
    fn after(&self, cut: &Cut) -> IntervalBox
        ensures { result ≡ cut_box self.now cut.now }
    {
        let p = cut.first();
        let q = cut.second();
        let c = cut.bound();
        if !(self.on_line(p) && self.on_line(q)) {
            *self
        } else if p == q {
            self.bounded(p, i64::from(c.div_euclid(2)))
        } else {
            self.bounded_both(p, q, c)
        }
    }

    // Whether there is a limit at p and q.
    fn is_limited(&self, p: u8, q: u8) -> bool
        ensures { result ≡ limited self.now p q }
    {
        !self.void && self.on_line(p) && self.on_line(q) && q != opposite(p)
    }

    // The sum of the greatest values at p and q.
    fn sum(&self, p: u8, q: u8) -> i64
        ensures { result ≡ greatest self.now p +ℤ greatest self.now q }
    {
        self.greatest(p) + self.greatest(q)
    }
}

impl Shape for IntervalBox {
    ghost model = { box_model };

    ghost laws = { box_laws };

    fn start(home: &Home) -> IntervalBox
        ensures { result ≡ start_box home.now }
    {
        IntervalBox {
            n: home.n,
            void: false,
            spans: spans_of(home),
        }
    }

    fn n(&self) -> u8
        ensures { result ≡ self.now.n }
    {
        self.n
    }

    fn cut(&mut self, cut: Cut)
        ensures { self.new ≡ cut_box self.old cut }
    {
        *self = self.after(&cut);
    }

    fn split(&self) -> (IntervalBox, IntervalBox)
        ensures { result ≡ (lower_box self.now, upper_box self.now) }
    {
        if self.is_closed() {
            return (*self, *self);
        }
        let k = widest(&self.widths()) as u8;
        let m = self.middle_of(k);
        (self.at_most(k, m), self.at_least(k, m + 1))
    }

    // As in the octagon: a trait for both would state the flag and the widths again.
    fn extent(&self) -> Extent
        ensures { result ≡ extent_box self.now }
    {
        if self.void {
            Extent::Void
        } else if single(&self.widths()) {
            Extent::Lone
        } else {
            Extent::Open
        }
    }

    fn limit(&self, p: u8, q: u8) -> i32
        ensures { result ≡ limit_box self.now p q }
    {
        if self.is_limited(p, q) {
            self.sum(p, q).clamp(-2_000_000, 2_000_000) as i32
        } else {
            0
        }
    }

    fn holds(&self, point: &Point) -> bool
        ensures { result ≡ holds_box self.now (values_of point.now) }
    {
        !self.void && point.settings() == self.n && self.inside(point)
    }

    fn offer(&self) -> Option<Point>
        ensures { result ≡ offer_box self.now }
    {
        (!self.void).then(|| Point {
            n: self.n,
            values: self.lows(),
        })
    }

    fn halvings(&self) -> u32
        ensures { result ≡ halvings_box self.now }
    {
        if self.void {
            0
        } else {
            halvings(&self.widths())
        }
    }
}
