// The one place where the rules are joined: a rule of any of them.
ghost use Rattle.std.specs.Prelude.{◌≡◌};
ghost use Rattle.rules.specs.declared.joined.Joined.TheVariants.{First, Second};

use super::apart::ApartRule;
use super::joined::Joined;
use super::pair::PairRule;
use super::step::StepRule;
use sum_rule::sum::SumRule;

pub type AnyRule = Joined<PairRule, Joined<SumRule, Joined<ApartRule, StepRule>>>;

// Each of the four as a rule of any.
impl From<PairRule> for AnyRule {
    ghost from_gives = { λ rule any. any ≡ First rule };

    fn from(rule: PairRule) -> AnyRule {
        Joined::First(rule)
    }
}

impl From<SumRule> for AnyRule {
    ghost from_gives = { λ rule any. any ≡ Second (First rule) };

    fn from(rule: SumRule) -> AnyRule {
        Joined::Second(Joined::First(rule))
    }
}

impl From<ApartRule> for AnyRule {
    ghost from_gives = { λ rule any. any ≡ Second (Second (First rule)) };

    fn from(rule: ApartRule) -> AnyRule {
        Joined::Second(Joined::Second(Joined::First(rule)))
    }
}

impl From<StepRule> for AnyRule {
    ghost from_gives = { λ rule any. any ≡ Second (Second (Second rule)) };

    fn from(rule: StepRule) -> AnyRule {
        Joined::Second(Joined::Second(Joined::Second(rule)))
    }
}
