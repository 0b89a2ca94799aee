// The call that asks a limit.
ghost use Rattle.std.specs.Prelude.{◌≡◌};
ghost use Rattle.search_theory.specs.Calls.{limit_call};
ghost use Rattle.search.specs.Meanings.{LimitBounds};
ghost use Rattle.search.specs.Views.{view};

use super::Solver;
use interface::extent::Extent;
use interface::fault::{RecordFault, SolverFault};
use interface::guard::refuse;
use interface::node::opposite;
use interface::shape::Shape;

impl<S: Shape> Solver<S> {
    // The limit of the solver's own shape at two nodes on the line that are not opposite: no held point is above it.
    pub fn limit(&self, p: u8, q: u8) -> Result<i32, SolverFault>
        ensures answers { result ≡ limit_call S.model (view self.now) p q }
        ensures bounds { LimitBounds S.model (view self.now) p q result }
    {
        let nodes = 2 * self.shape.n() as usize;
        refuse(p as usize >= nodes, RecordFault::Node(2))?;
        refuse(q as usize >= nodes, RecordFault::Node(3))?;
        refuse(q == opposite(p), RecordFault::Clash(3))?;
        refuse(self.shape.extent() == Extent::Void, SolverFault::Void)?;
        Ok(self.shape.limit(p, q))
    }
}
