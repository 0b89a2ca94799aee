// The call that states a rule.
ghost use Rattle.std.specs.Prelude.{◌≡◌};
ghost use Rattle.search_theory.specs.Calls.{state_call};
ghost use Rattle.search_theory.specs.Solving.{left};
ghost use Rattle.search.specs.Meanings.{StateNarrows};
ghost use Rattle.search.specs.Views.{view};

use super::Solver;
use crate::lent::long_enough;
use interface::fault::SolverFault;
use interface::rule::Rule;
use interface::shape::Shape;
use search_theory::phase::Phase;

impl<S: Shape> Solver<S> {
    // Puts a rule after the others, of which there are at most 32, and applies its standing cut: every held point
    // that meets the rule stays, and none is added.
    pub fn state<R: Rule>(&mut self, rules: &mut [R], rule: R) -> Result<(), SolverFault>
        ensures answers { left result (view self.new) rules.new ≡ state_call S.model R.model (view self.old) rules.old rule }
        ensures narrows { StateNarrows S.model R.model (view self.old) rule (left result (view self.new) rules.new) }
    {
        self.at(Phase::Stating)?;
        long_enough(rules, self.rules)?;
        let n = self.shape.n();
        rule.check(n)?;
        if self.rules >= 32 || rules.len() == self.rules {
            return Err(SolverFault::Rules);
        }
        rules[self.rules] = rule;
        self.rules += 1;
        if let Some(cut) = rule.standing(n) {
            self.shape.cut(cut);
        }
        Ok(())
    }
}
