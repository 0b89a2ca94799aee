// The call that runs a search.
ghost use Rattle.std.specs.Prelude.{◌≡◌};
ghost use Rattle.search_theory.specs.Calls.{run_call};
ghost use Rattle.search_theory.specs.RunLaws.{RunLaws};
ghost use Rattle.search_theory.specs.Solving.{left};
ghost use Rattle.search.specs.Meanings.{InPortions};
ghost use Rattle.search.specs.Views.{view};

use super::Solver;
use crate::lent::long_enough;
use crate::steps::Work;
use interface::fault::SolverFault;
use interface::rule::Rule;
use interface::shape::Shape;
use search_theory::phase::Phase;
use search_theory::region::Region;
use search_theory::report::Report;

impl<S: Shape> Solver<S> {
    // Apart from `run`, whose laws and portions are proved from this equation.
    pub(super) fn run_any<R: Rule>(
        &mut self,
        rules: &[R],
        stack: &mut [S],
        out: &mut [Region<S>],
        budget: u32,
    ) -> Result<Report, SolverFault>
        ensures { left result (view self.new) (stack.new, out.new) ≡ run_call S.model R.model (view self.old) rules.now stack.old out.old budget }
    {
        self.at(Phase::Searching)?;
        long_enough(rules, self.rules)?;
        long_enough(stack, self.waiting)?;
        let mut work = Work {
            stack,
            waiting: self.waiting,
            out,
            count: 0,
            found: self.found,
        };
        let (outcome, steps) = work.run(&rules[..self.rules], budget);
        self.waiting = work.waiting;
        self.found = work.found;
        Ok(Report {
            outcome,
            steps,
            count: work.count,
            found: work.found,
        })
    }

    // Takes waiting regions step by step, at most `budget` of them, and puts what is handed out in the out slice from its front.
    // Its slices are lent one by one: who runs a search by this call alone has no checkpoints to lend.
    pub fn run<R: Rule>(
        &mut self,
        rules: &[R],
        stack: &mut [S],
        out: &mut [Region<S>],
        budget: u32,
    ) -> Result<Report, SolverFault>
        ensures answers { left result (view self.new) (stack.new, out.new) ≡ run_call S.model R.model (view self.old) rules.now stack.old out.old budget }
        ensures laws { RunLaws S.model R.model (view self.old) rules.now stack.old out.old budget (left result (view self.new) (stack.new, out.new)) }
        ensures portions { InPortions S.model R.model (view self.old) rules.now stack.old budget (left result (view self.new) (stack.new, out.new)) }
    {
        self.run_any(rules, stack, out, budget)
    }
}
