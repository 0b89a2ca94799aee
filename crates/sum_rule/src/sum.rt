// The sum rule: multiples of three settings add up to at most a number.
ghost use Rattle.std.specs.Prelude.{◌≡◌, ◌+◌, ◌*◌, ◌^◌, ◌≤◌, false, pos, if◌then◌else◌, int_lt, unsigned_abs};
ghost use Rattle.std.specs.Fn.{FnReturnsAt};
ghost use Rattle.std.specs.Int.{int_div_euclid};
ghost use Rattle.interface.specs.Points.{values_of};
ghost use Rattle.sum_rule.specs.Sums.{sum_core, times, is_empty, clash, wrong_number, term_at, least_of, greatest_of, three, ThreeOf, left_for, term_cut};
ghost use Rattle.sum_rule.specs.SumsLemmas.{sum_core_laws};

use interface::cut::Cut;
use interface::fault::RecordFault;
use interface::guard::{Core, refuse};
use interface::point::Point;
use interface::reading::Reading;
use rule_base::bounds::bounded_by;

// A coefficient times a setting; a coefficient 0 stands for no term.
#[derive(Clone, Copy)]
pub struct Term {
    pub setting: u8,
    pub coefficient: i8,
}

// The three terms add up to at most t.
#[derive(Clone, Copy)]
pub struct SumRule {
    pub first: Term,
    pub second: Term,
    pub third: Term,
    pub t: i32,
}

// Each amount says its bound, so that three of them add up in 64 bits; a type with the bound in it would be taken apart
// at each sum.
#[tactic(auto, unfolding(crate::specs::Sums::times), using(crate::proofs::Products::product_small))]
fn product(k: i8, z: i32) -> i64
    ensures value { result ≡ times k z }
    ensures bound { unsigned_abs result ≤ 2 ^ 38 }
{
    i64::from(k) * i64::from(z)
}

impl Term {
    fn is_empty(&self) -> bool
        ensures { result ≡ is_empty self.now }
    {
        self.coefficient == 0
    }

    fn clashes(&self, other: &Term) -> bool
        ensures { result ≡ clash self.now other.now }
    {
        !self.is_empty() && !other.is_empty() && self.setting == other.setting
    }

    fn is_wrong(&self) -> bool
        ensures { result ≡ wrong_number self.now }
    {
        !(-100..=100).contains(&self.coefficient) || self.is_empty() && self.setting != 0
    }

    fn at(&self, point: &Point) -> i64
        ensures value { result ≡ term_at (values_of point.now) self.now }
        ensures bound { unsigned_abs result ≤ 2 ^ 38 }
    {
        product(self.coefficient, point.setting(self.setting))
    }

    // The first of two where the coefficient is at least 0, the second where it is below.
    fn by_sign<T: Copy>(&self, plus: T, minus: T) -> T
        ensures { result ≡ (if int_lt self.now.coefficient (pos 0) then minus else plus) }
    {
        if self.coefficient < 0 { minus } else { plus }
    }

    fn least(&self, reading: &Reading) -> i64
        ensures value { result ≡ least_of reading.now self.now }
        ensures bound { unsigned_abs result ≤ 2 ^ 38 }
    {
        let low = reading.low(self.setting);
        let high = reading.high(self.setting);
        product(self.coefficient, self.by_sign(low, high))
    }

    fn greatest(&self, reading: &Reading) -> i64
        ensures value { result ≡ greatest_of reading.now self.now }
        ensures bound { unsigned_abs result ≤ 2 ^ 38 }
    {
        let low = reading.low(self.setting);
        let high = reading.high(self.setting);
        product(self.coefficient, self.by_sign(high, low))
    }

    // The node whose value the term bounds: the setting's, or its negative's where the coefficient is below 0.
    fn node(&self) -> u16
        ensures { result ≡ (if int_lt self.now.coefficient (pos 0) then 2 * self.now.setting + 1 else 2 * self.now.setting) }
    {
        let even = 2 * u16::from(self.setting);
        self.by_sign(even, even + 1)
    }

    // How much of the setting, or of its negative, the amount leaves room for: rounded down.
    fn share(&self, amount: i64) -> i64
        requires { is_empty self.now ≡ false }
        ensures { result ≡ int_div_euclid amount (pos (unsigned_abs self.now.coefficient)) }
    {
        amount.div_euclid(i64::from(self.coefficient.unsigned_abs()))
    }
}

impl SumRule {
    // The three amounts together. Term by term: summing an array of signed numbers leaves the bound of the total open.
    fn three<F: Fn(&Term) -> i64>(&self, amount: F) -> i64
        requires callable { F.IsAlwaysCallable amount }
        requires bound { (u : _) (z : _) → F.post amount u z → unsigned_abs z ≤ 2 ^ 38 }
        ensures { ThreeOf (FnReturnsAt F.Fn amount) self.now result }
    {
        amount(&self.first) + amount(&self.second) + amount(&self.third)
    }

    fn total_at(&self, point: &Point) -> i64
        ensures { result ≡ three (term_at (values_of point.now)) self.now }
    {
        self.three(|u| u.at(point))
    }

    fn least(&self, reading: &Reading) -> i64
        ensures { result ≡ three (least_of reading.now) self.now }
    {
        self.three(|u| u.least(reading))
    }

    fn greatest(&self, reading: &Reading) -> i64
        ensures { result ≡ three (greatest_of reading.now) self.now }
    {
        self.three(|u| u.greatest(reading))
    }

    // What t leaves for one term when the other two are least.
    fn left_for(&self, reading: &Reading, v: &Term, w: &Term) -> i64
        ensures { result ≡ left_for self.now reading.now v.now w.now }
    {
        i64::from(self.t) - (v.least(reading) + w.least(reading))
    }

    // The cut that bounds the setting of the term u.
    fn term_cut(&self, reading: &Reading, u: &Term, v: &Term, w: &Term) -> Option<Cut>
        ensures { result ≡ term_cut self.now reading.now u.now v.now w.now }
    {
        if u.is_empty() {
            return None;
        }
        bounded_by(u.node(), u.share(self.left_for(reading, v, w)))
    }
}

impl Core for SumRule {
    ghost core = { sum_core };

    ghost laws = { sum_core_laws };

    fn check_grounds(&self, n: u8) -> Result<(), RecordFault> {
        refuse(self.first.setting >= n, RecordFault::Node(2))?;
        refuse(self.second.setting >= n, RecordFault::Node(4))?;
        refuse(self.third.setting >= n, RecordFault::Node(6))?;
        refuse(self.first.clashes(&self.second), RecordFault::Clash(4))?;
        refuse(self.first.clashes(&self.third), RecordFault::Clash(6))?;
        refuse(self.second.clashes(&self.third), RecordFault::Clash(6))?;
        refuse(self.first.is_wrong(), RecordFault::Number(3))?;
        refuse(self.second.is_wrong(), RecordFault::Number(5))?;
        refuse(self.third.is_wrong(), RecordFault::Number(7))?;
        refuse(
            !(-300_000_000..=300_000_000).contains(&self.t),
            RecordFault::Number(8),
        )?;
        let empty = self.first.is_empty() && self.second.is_empty() && self.third.is_empty();
        refuse(empty, RecordFault::Empty(1))
    }

    fn met_by(&self, point: &Point) -> bool {
        self.total_at(point) <= i64::from(self.t)
    }

    fn none_within(&self, reading: &Reading) -> bool {
        i64::from(self.t) < self.least(reading)
    }

    fn all_within(&self, reading: &Reading) -> bool {
        self.greatest(reading) <= i64::from(self.t)
    }

    fn standing_cut(&self) -> Option<Cut> {
        None
    }

    // By number: each cut is asked on the limits that the one before it left.
    fn proposed_cut(&self, reading: &Reading, i: u8) -> Option<Cut> {
        match i {
            0 => self.term_cut(reading, &self.first, &self.second, &self.third),
            1 => self.term_cut(reading, &self.second, &self.first, &self.third),
            2 => self.term_cut(reading, &self.third, &self.first, &self.second),
            _ => None,
        }
    }
}
