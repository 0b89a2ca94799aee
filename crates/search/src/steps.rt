// A run step by step, on what waits in the stack slice and what was put in the out slice.
ghost use Rattle.std.specs.Prelude.{◌≡◌, ◌<◌, ◌≤◌, length};
ghost use Rattle.search_theory.specs.Runs.{step, ended, run_from};
ghost use Rattle.search.specs.Works.{SamePlaces, work_of, stepped};

use super::classify::classify;
use super::refine::refine;
use interface::rule::Rule;
use interface::shape::Shape;
use search_theory::fate::Fate;
use search_theory::outcome::Outcome;
use search_theory::region::Region;

// What a run works on: the lent stack slice and how many regions wait in it, the lent out slice and how many this run
// handed out there, and whether one was handed out since the search began.
#[derive(Drop)]
pub(crate) struct Work<'a, S> {
    pub stack: &'a mut [S],
    pub waiting: usize,
    pub out: &'a mut [Region<S>],
    pub count: usize,
    pub found: bool,
}

impl<S: Shape> Work<'_, S> {
    // Takes the last waiting region; a step that lacks a place is not made.
    fn step<R: Rule>(&mut self, rules: &[R]) -> Result<(), Outcome>
        requires { (0 < self.old.waiting) × (self.old.waiting ≤ length self.old.stack.now) }
        ensures after { (result, work_of self.new) ≡ stepped (work_of self.old) (step S.model R.model rules.now (work_of self.old)) }
        ensures bound { self.new.waiting ≤ length self.new.stack.now }
        ensures same_places { SamePlaces self.old self.new }
    {
        let shape = refine(rules, self.stack[self.waiting - 1]);
        match classify(rules, &shape) {
            Fate::Dropped => {
                self.waiting -= 1;
            }
            Fate::HandedOut(point) => {
                if self.count >= self.out.len() {
                    return Err(Outcome::ListFull);
                }
                self.out[self.count] = Region { shape, point };
                self.count += 1;
                self.waiting -= 1;
                self.found = true;
            }
            Fate::Split => {
                if self.waiting >= self.stack.len() {
                    return Err(Outcome::StackFull);
                }
                let (lower, upper) = shape.split();
                self.stack[self.waiting - 1] = upper;
                self.stack[self.waiting] = lower;
                self.waiting += 1;
            }
        }
        Ok(())
    }

    // Steps until nothing waits, one cannot be made or the budget is used up; answers why, and how many were made.
    pub(crate) fn run<R: Rule>(&mut self, rules: &[R], budget: u32) -> (Outcome, u32)
        requires { self.old.waiting ≤ length self.old.stack.now }
        ensures after { ended result.0 result.1 (work_of self.new) ≡ run_from S.model R.model rules.now budget 0 (work_of self.old) }
        ensures same_places { SamePlaces self.old self.new }
    {
        for steps in 0..budget {
            if self.waiting == 0 {
                return (Outcome::Done, steps);
            }
            if let Err(outcome) = self.step(rules) {
                return (outcome, steps);
            }
        }
        // the last step may have left nothing: done comes before spent
        let outcome = if self.waiting == 0 {
            Outcome::Done
        } else {
            Outcome::Spent
        };
        (outcome, budget)
    }
}
