// How a run ends.
ghost use Rattle.std.specs.Prelude.{◌≡◌};
ghost use Rattle.search_theory.specs.Outcomes.{outcome_number};

// Done: nothing waits. Spent: the budget is used up. ListFull and StackFull: the next step has no place to write to.
#[derive(Clone, Copy, PartialEq, Eq, Debug)]
pub enum Outcome {
    Done = 0,
    Spent = 1,
    ListFull = 2,
    StackFull = 3,
}

impl From<Outcome> for u8 {
    ghost from_gives = { λ outcome n. n ≡ outcome_number outcome };

    fn from(outcome: Outcome) -> u8 {
        outcome as u8
    }
}
