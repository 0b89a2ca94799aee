// The memory that a session is lent with each call, and the one call that is made on it.
ghost use Rattle.std.specs.Prelude.{◌≡◌, IfOk, Some};
ghost use Rattle.octagon.specs.Octagons.{octagon_model};
ghost use Rattle.rules.specs.Any.{any_model};
ghost use Rattle.search.specs.Views.{view_if_any, answered_by};
ghost use Rattle.search_theory.specs.Requests.{answer};
ghost use Rattle.search_theory.specs.Solving.{open_call};
ghost use Rattle.session.specs.Promised.{PromisedWhole};
ghost use Rattle.fitter.specs.Sessions.{world, Session};

use super::store::Memory;
use interface::fault::SolverFault;
use interface::home::{Home, Span};
use interface::point::Point;
use interface::shape::Shape;
use octagon::matrix::Octagon;
use rules::any::AnyRule;
use search::lent::Lent;
use search::solver::Solver;
use search_theory::checkpoint::Checkpoint;
use search_theory::region::Region;
use search_theory::reply::Reply;
use search_theory::request::Request;
use session::call::{call, open};

impl Memory {
    // What fills it is never looked at.
    pub(crate) fn new() -> Memory {
        let shape = Octagon::start(&Home {
            n: 1,
            spans: [Span::default(); 8],
        });
        let point = Point {
            n: 1,
            values: [0; 8],
        };
        Memory {
            rules: [AnyRule::default(); 32],
            checkpoints: [Checkpoint { shape, rules: 0 }; 4],
            stack: [shape; 169],
            regions: [Region { shape, point }; 4],
        }
    }

    // A solver just opened, to be lent this memory.
    pub(crate) fn open(&self, home: &Home) -> Result<Solver<Octagon>, SolverFault>
        ensures value { view_if_any result ≡ open_call octagon_model home.now }
        ensures session { IfOk result (λ s. Session (Some s) self.now) }
    {
        open(home)
    }

    // The session's answer to a request, on this memory.
    pub(crate) fn ask(
        &mut self,
        solver: &mut Solver<Octagon>,
        request: Request<AnyRule>,
    ) -> Result<Reply, SolverFault>
        ensures answers { answered_by result (world solver.new self.new) self.new.regions ≡ answer octagon_model any_model (world solver.old self.old) self.old.regions request }
        ensures promise { PromisedWhole octagon_model any_model (world solver.old self.old) request (answered_by result (world solver.new self.new) self.new.regions) }
        ensures session { Session (Some solver.old) self.old → Session (Some solver.new) self.new }
    {
        let mut lent = Lent {
            rules: &mut self.rules,
            checkpoints: &mut self.checkpoints,
            stack: &mut self.stack,
            out: &mut self.regions,
        };
        call(solver, &mut lent, request)
    }
}
