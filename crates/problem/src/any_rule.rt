// The frames that a line may be, and the rule that it states.
ghost use Rattle.std.specs.Prelude.{◌≡◌};
ghost use Rattle.wire.specs.Bytes.{unhex};
ghost use Rattle.problem.specs.AnyRules.{known_kinds, rule_of, filler};

use interface::home::Home;
use rules::any::AnyRule;
use rules::apart::ApartRule;
use rules::pair::PairRule;
use rules::step::StepRule;
use sum_rule::sum::SumRule;
use wire::bytes::byte_at;
use wire::frame::{Frame, FrameKind};

// The kinds of frame that a line may be.
pub fn kinds() -> [FrameKind; 5]
    ensures { result ≡ known_kinds }
{
    [
        Home::kind(),
        PairRule::kind(),
        SumRule::kind(),
        ApartRule::kind(),
        StepRule::kind(),
    ]
}

// The rule that a line's digits give, by its first byte.
pub fn read_rule(digits: &[u8]) -> AnyRule
    ensures { result ≡ rule_of (unhex digits.now) }
{
    // by the byte itself: an enum between it and the rule would only name each kind once more
    match byte_at(digits, 0) {
        2 => AnyRule::from(PairRule::read(digits)),
        3 => AnyRule::from(SumRule::read(digits)),
        5 => AnyRule::from(ApartRule::read(digits)),
        _ => AnyRule::from(StepRule::read(digits)),
    }
}

// A record to fill an array with.
pub fn no_rule() -> AnyRule
    ensures { result ≡ filler }
{
    AnyRule::default()
}
