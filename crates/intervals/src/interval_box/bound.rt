// Bounding the settings of an interval box.
ghost use Rattle.std.specs.Prelude.{◌≡◌, ◌^◌, pos, neg_ℤ, ◌≤ℤ◌, ◌<ℤ◌};
ghost use Rattle.intervals.specs.Boxes.{voided, with_range, narrowed, at_most, at_least, bounded};

use super::IntervalBox;
use interface::home::Span;

impl IntervalBox {
    // The one void box of as many settings.
    fn emptied(&self) -> IntervalBox
        ensures { result ≡ voided self.now }
    {
        IntervalBox {
            n: self.n,
            void: true,
            spans: [Span::default(); 8],
        }
    }

    // With another span of setting k; past the end there is none. By index: after `get_mut` a proof knows no element.
    fn ranged(&self, k: u8, low: i32, high: i32) -> IntervalBox
        ensures { result ≡ with_range self.now k low high }
    {
        let mut s = *self;
        if k < 8 {
            s.spans[k as usize] = Span { low, high };
        }
        s
    }

    // With this range of setting k, void where the range is empty.
    fn narrowed(&self, k: u8, low: i64, high: i64) -> IntervalBox
        requires { (neg_ℤ (pos (2 ^ 31)) ≤ℤ low) × (high <ℤ pos (2 ^ 31)) }
        ensures { result ≡ narrowed self.now k low high }
    {
        if self.void {
            *self
        } else if high < low {
            self.emptied()
        } else {
            self.ranged(k, low as i32, high as i32)
        }
    }

    // Without the values of setting k above b. The twin `at_least` is the same call of `narrowed` on the other side: one
    // function for both would need a flag.
    pub(crate) fn at_most(&self, k: u8, b: i64) -> IntervalBox
        ensures { result ≡ at_most self.now k b }
    {
        self.narrowed(k, i64::from(self.low(k)), b.min(i64::from(self.high(k))))
    }

    // Without the values of setting k below b.
    pub(crate) fn at_least(&self, k: u8, b: i64) -> IntervalBox
        ensures { result ≡ at_least self.now k b }
    {
        self.narrowed(k, b.max(i64::from(self.low(k))), i64::from(self.high(k)))
    }

    // With v(p) at most b: an odd node bounds its setting from below.
    #[tactic(auto, unfolding(crate::specs::Boxes::bounded))]
    pub(crate) fn bounded(&self, p: u8, b: i64) -> IntervalBox
        requires { (neg_ℤ (pos (2 ^ 33)) ≤ℤ b) × (b ≤ℤ pos (2 ^ 33)) }
        ensures { result ≡ bounded self.now p b }
    {
        if p % 2 == 0 {
            self.at_most(p / 2, b)
        } else {
            self.at_least(p / 2, -b)
        }
    }
}
