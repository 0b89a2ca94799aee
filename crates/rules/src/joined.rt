// A rule of either of two: it answers as that rule does. An enum of its own and no Result, as neither of them is an error.
ghost use Rattle.rules.specs.Joins.{IsFirst, joined};
ghost use Rattle.rules.specs.JoinsLemmas.{joined_laws};

use interface::cut::Cut;
use interface::fault::RecordFault;
use interface::point::Point;
use interface::reading::Reading;
use interface::rule::Rule;
use interface::verdict::Verdict;

#[derive(Clone, Copy)]
pub enum Joined<A, B> {
    First(A),
    Second(B),
}

// First of the default of A.
impl<A: Default, B> Default for Joined<A, B> {
    ghost is_default = { IsFirst A.is_default };

    fn default() -> Joined<A, B> {
        Joined::First(A::default())
    }
}

impl<A: Rule, B: Rule> Rule for Joined<A, B> {
    ghost model = { joined A.model B.model };

    ghost laws = { joined_laws _ _ A.laws B.laws };

    fn check(&self, n: u8) -> Result<(), RecordFault> {
        match *self {
            Joined::First(rule) => rule.check(n),
            Joined::Second(rule) => rule.check(n),
        }
    }

    fn meets(&self, n: u8, point: &Point) -> bool {
        match *self {
            Joined::First(rule) => rule.meets(n, point),
            Joined::Second(rule) => rule.meets(n, point),
        }
    }

    fn judge(&self, reading: &Reading) -> Verdict {
        match *self {
            Joined::First(rule) => rule.judge(reading),
            Joined::Second(rule) => rule.judge(reading),
        }
    }

    fn standing(&self, n: u8) -> Option<Cut> {
        match *self {
            Joined::First(rule) => rule.standing(n),
            Joined::Second(rule) => rule.standing(n),
        }
    }

    fn proposed(&self, reading: &Reading, i: u8) -> Option<Cut> {
        match *self {
            Joined::First(rule) => rule.proposed(reading, i),
            Joined::Second(rule) => rule.proposed(reading, i),
        }
    }
}
