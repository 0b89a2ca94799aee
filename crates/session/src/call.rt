// A session with the octagon: opened from a home, then any calls.
ghost use Rattle.std.specs.Prelude.{◌≡◌};
ghost use Rattle.octagon.specs.Octagons.{octagon_model};
ghost use Rattle.search.specs.Lending.{SameSlices, world_with, answered_with};
ghost use Rattle.search.specs.Views.{view_if_any};
ghost use Rattle.search_theory.specs.Requests.{answer};
ghost use Rattle.search_theory.specs.Solving.{open_call};
ghost use Rattle.session.specs.Promised.{PromisedWhole};

use interface::fault::SolverFault;
use interface::home::Home;
use interface::rule::Rule;
use octagon::matrix::Octagon;
use search::lent::Lent;
use search::solver::Solver;
use search_theory::reply::Reply;
use search_theory::request::Request;

// A session just opened, with no rule; refused with the home's own fault. `Solver::open` at the octagon: the one place
// where the shape is picked.
pub fn open(home: &Home) -> Result<Solver<Octagon>, SolverFault>
    ensures { view_if_any result ≡ open_call octagon_model home.now }
{
    Solver::open(home)
}

// Does what the request says, on the lent slices, which stay lent.
pub fn call<R: Rule>(
    solver: &mut Solver<Octagon>,
    lent: &mut Lent<'_, Octagon, R>,
    request: Request<R>,
) -> Result<Reply, SolverFault>
    ensures answers { answered_with result solver.new lent.new ≡ answer octagon_model R.model (world_with solver.old lent.old) lent.old.out.now request }
    ensures promise { PromisedWhole octagon_model R.model (world_with solver.old lent.old) request (answered_with result solver.new lent.new) }
    ensures same_slices { SameSlices lent.old lent.new }
{
    solver.call(lent, request)
}
