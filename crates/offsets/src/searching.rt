// The calls of a session that solve a problem: each rule is stated, the search begins and runs once.
ghost use Rattle.std.specs.Prelude.{◌≡◌, map};
ghost use Rattle.octagon.specs.Octagons.{octagon_model};
ghost use Rattle.offsets.specs.Searching.{answered_in};
ghost use Rattle.rules.specs.Any.{any_model};
ghost use Rattle.search.specs.Lending.{SameSlices, world_with};
ghost use Rattle.search_theory.specs.declared.request.Request.TheVariants.{State};
ghost use Rattle.search_theory.specs.Requests.{answer};
ghost use Rattle.solving.specs.Solving.{after_calls};
ghost use Rattle.wire.specs.Appending.{Appends};

use super::regions::put_answer;
use octagon::matrix::Octagon;
use rules::any::AnyRule;
use search::lent::Lent;
use search::solver::Solver;
use search_theory::request::Request;
use session::call::call;
use wire::output::Output;

// A rule that passed its check is not refused while there is a place for it.
fn state_one(solver: &mut Solver<Octagon>, lent: &mut Lent<'_, Octagon, AnyRule>, rule: AnyRule)
    ensures world { world_with solver.new lent.new ≡ (answer octagon_model any_model (world_with solver.old lent.old) lent.old.out.now (State rule)).world }
    ensures out { lent.new.out.now ≡ lent.old.out.now }
    ensures same_slices { SameSlices lent.old lent.new }
{
    let _ = call(solver, lent, Request::State(rule));
}

fn state_all(
    solver: &mut Solver<Octagon>,
    lent: &mut Lent<'_, Octagon, AnyRule>,
    stated: &[AnyRule],
)
    ensures world { world_with solver.new lent.new ≡ after_calls octagon_model any_model (world_with solver.old lent.old) lent.old.out.now (map State stated.now) }
    ensures out { lent.new.out.now ≡ lent.old.out.now }
    ensures same_slices { SameSlices lent.old lent.new }
{
    for rule in stated {
        state_one(solver, lent, *rule);
    }
}

// Solves a problem in the memory that is lent, and writes the lines that answer it.
pub fn search_in(
    solver: &mut Solver<Octagon>,
    lent: &mut Lent<'_, Octagon, AnyRule>,
    stated: &[AnyRule],
    budget: u32,
    output: &mut Output,
)
    ensures { Appends output.old output.new (answered_in octagon_model (world_with solver.old lent.old) lent.old.out.now stated.now budget) }
{
    state_all(solver, lent, stated);
    let _ = call::<AnyRule>(solver, lent, Request::Begin);
    let answer = call::<AnyRule>(solver, lent, Request::Run(budget));
    let regions = &mut *lent.out;
    put_answer(answer, regions, output);
}
