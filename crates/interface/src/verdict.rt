// How a rule is judged on a reading.
ghost use Rattle.std.specs.Prelude.{◌≡◌};
ghost use Rattle.interface.specs.Answers.{verdict_number};

// Nothing: no point within the limits meets the rule. All: every one does. Unknown: neither is known.
#[derive(Clone, Copy, Debug, PartialEq, Eq)]
pub enum Verdict {
    Nothing = 0,
    All = 1,
    Unknown = 2,
}

impl From<Verdict> for u8 {
    ghost from_gives = { λ verdict number. number ≡ verdict_number verdict };

    fn from(verdict: Verdict) -> u8 {
        verdict as u8
    }
}
