// Any of the eight calls, as data.
ghost use Rattle.std.specs.Prelude.{◌≡◌};
ghost use Rattle.search_theory.specs.Requests.{answer, accepted, replied};
ghost use Rattle.search.specs.Promised.{Promised};
ghost use Rattle.search.specs.Lending.{SameSlices, world_with, answered_with};

use super::Solver;
use crate::lent::Lent;
use interface::fault::SolverFault;
use interface::rule::Rule;
use interface::shape::Shape;
use search_theory::reply::Reply;
use search_theory::request::Request;

impl<S: Shape> Solver<S> {
    // Apart from `call`, whose promise is proved from this equation.
    fn call_any<R: Rule>(
        &mut self,
        lent: &mut Lent<'_, S, R>,
        request: Request<R>,
    ) -> Result<Reply, SolverFault>
        ensures answers { answered_with result self.new lent.new ≡ answer S.model R.model (world_with self.old lent.old) lent.old.out.now request }
        ensures same_slices { SameSlices lent.old lent.new }
    {
        // A slice that a call only reads is borrowed under a name first: the check does not follow a field lent as `&[T]`.
        match request {
            Request::State(rule) => self.state(lent.rules, rule)?,
            Request::Mark => self.mark(lent.checkpoints)?,
            Request::Back => {
                let checkpoints = &mut *lent.checkpoints;
                self.back(checkpoints)?;
            }
            Request::Keep => self.keep()?,
            Request::Begin => self.begin(lent.stack)?,
            Request::Run(budget) => {
                let rules = &mut *lent.rules;
                return Ok(Reply::Ran(self.run_any(rules, lent.stack, lent.out, budget)?));
            }
            Request::Leave => self.leave()?,
            Request::Limit(p, q) => return Ok(Reply::LimitIs(self.limit(p, q)?)),
        }
        Ok(Reply::Accepted)
    }

    // Does what the request says, on the lent slices, which stay lent.
    pub fn call<R: Rule>(
        &mut self,
        lent: &mut Lent<'_, S, R>,
        request: Request<R>,
    ) -> Result<Reply, SolverFault>
        ensures answers { answered_with result self.new lent.new ≡ answer S.model R.model (world_with self.old lent.old) lent.old.out.now request }
        ensures promise { Promised S.model R.model (world_with self.old lent.old) request (answered_with result self.new lent.new) }
        ensures same_slices { SameSlices lent.old lent.new }
    {
        self.call_any(lent, request)
    }
}
