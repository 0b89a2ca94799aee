// The solver's state, and the calls that open it, mark and take back, begin and leave a search.
ghost use Rattle.std.specs.Prelude.{◌≡◌, [], ◌∷◌, not};
ghost use Rattle.interface.specs.Grounds.{first_fault};
ghost use Rattle.search_theory.specs.Calls.{mark_call, back_call, keep_call, begin_call, leave_call};
ghost use Rattle.search_theory.specs.Solving.{left, open_call};
ghost use Rattle.search.specs.Meanings.{Opens};
ghost use Rattle.search.specs.Views.{at_phase, view, view_if_any};

use super::lent::long_enough;
use interface::fault::SolverFault;
use interface::guard::refuse;
use interface::home::Home;
use interface::shape::Shape;
use search_theory::checkpoint::Checkpoint;
use search_theory::phase::Phase;

mod call;
mod limit;
mod run;
mod state;

// The shape, how many rules stand, how many checkpoints are kept, how many regions wait, the phase, and whether a
// region was handed out since the search began. What is counted lies in slices that the caller lends.
#[derive(Clone, Copy)]
pub struct Solver<S> {
    shape: S,
    rules: usize,
    marks: usize,
    waiting: usize,
    phase: Phase,
    found: bool,
}

impl<S: Shape> Solver<S> {
    // A solver on the shape of a home, which holds exactly the home's points, with no rule; refused with the home's own fault.
    pub fn open(home: &Home) -> Result<Solver<S>, SolverFault>
        ensures answers { view_if_any result ≡ open_call S.model home.now }
        ensures opens { Opens S.model home.now (view_if_any result) }
    {
        home.check()?;
        Ok(Solver {
            shape: S::start(home),
            rules: 0,
            marks: 0,
            waiting: 0,
            phase: Phase::Stating,
            found: false,
        })
    }

    // Refused in the other phase.
    fn at(&self, phase: Phase) -> Result<(), SolverFault>
        ensures { result ≡ first_fault ((not (at_phase phase self.now.phase), SolverFault.Phase) ∷ []) }
    {
        refuse(self.phase != phase, SolverFault::Phase)
    }

    // Puts a checkpoint of the shape and the count of rules after the others, of which there are at most 4.
    pub fn mark(&mut self, checkpoints: &mut [Checkpoint<S>]) -> Result<(), SolverFault>
        ensures { left result (view self.new) checkpoints.new ≡ mark_call (view self.old) checkpoints.old }
    {
        self.at(Phase::Stating)?;
        long_enough(checkpoints, self.marks)?;
        if self.marks >= 4 || checkpoints.len() == self.marks {
            return Err(SolverFault::Marks);
        }
        checkpoints[self.marks] = Checkpoint {
            shape: self.shape,
            rules: self.rules,
        };
        self.marks += 1;
        Ok(())
    }

    // Drops the last checkpoint and stays as it is.
    pub fn keep(&mut self) -> Result<(), SolverFault>
        ensures { left result (view self.new) tt ≡ keep_call (view self.old) }
    {
        self.at(Phase::Stating)?;
        self.marks = self.marks.checked_sub(1).ok_or(SolverFault::Unmarked)?;
        Ok(())
    }

    // Restores the last checkpoint and drops it.
    pub fn back(&mut self, checkpoints: &[Checkpoint<S>]) -> Result<(), SolverFault>
        ensures { left result (view self.new) tt ≡ back_call (view self.old) checkpoints.now }
    {
        self.at(Phase::Stating)?;
        long_enough(checkpoints, self.marks)?;
        let marks = self.marks.checked_sub(1).ok_or(SolverFault::Unmarked)?;
        let last = checkpoints[marks];
        self.shape = last.shape;
        self.rules = last.rules;
        self.marks = marks;
        Ok(())
    }

    // Starts a search: the shape alone waits, and nothing was handed out yet.
    pub fn begin(&mut self, stack: &mut [S]) -> Result<(), SolverFault>
        ensures { left result (view self.new) stack.new ≡ begin_call (view self.old) stack.old }
    {
        self.at(Phase::Stating)?;
        if stack.is_empty() {
            return Err(SolverFault::Stack);
        }
        stack[0] = self.shape;
        self.waiting = 1;
        self.phase = Phase::Searching;
        self.found = false;
        Ok(())
    }

    // Ends a search: what waits is forgotten.
    pub fn leave(&mut self) -> Result<(), SolverFault>
        ensures { left result (view self.new) tt ≡ leave_call (view self.old) }
    {
        self.at(Phase::Searching)?;
        self.waiting = 0;
        self.phase = Phase::Stating;
        Ok(())
    }
}
