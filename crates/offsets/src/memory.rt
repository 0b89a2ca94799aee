// The memory that solving a problem takes, and the search in it.
ghost use Rattle.std.specs.Prelude.{◌≡◌, ◌≤◌, length};
ghost use Rattle.octagon.specs.Octagons.{octagon_model};
ghost use Rattle.offsets.specs.Entry.{memory, no_point, room_in};
ghost use Rattle.offsets.specs.Searching.{answered_in};
ghost use Rattle.problem.specs.Problems.{rules_in};
ghost use Rattle.search.specs.Views.{world_of};
ghost use Rattle.wire.specs.Appending.{Appends, lines_in};

use super::searching::search_in;
use interface::point::Point;
use interface::shape::Shape;
use octagon::matrix::Octagon;
use problem::any_rule::no_rule;
use problem::problem::Problem;
use search::lent::Lent;
use search::solver::Solver;
use search_theory::checkpoint::Checkpoint;
use search_theory::region::Region;
use wire::output::Output;

// As many regions as fit at 1,882 bytes each before an end line of 15 bytes, at most 16.
fn region_room(size: usize) -> usize
    ensures value { result ≡ room_in size }
    ensures bound { result ≤ 16 }
{
    (size.saturating_sub(15) / 1882).min(16)
}

fn empty_point() -> Point
    ensures { result ≡ no_point }
{
    Point {
        n: 0,
        values: [0; 8],
    }
}

// Solves the problem with a solver that was opened on its home: 32 rules, 4 checkpoints, 169 waiting regions.
pub fn solve_opened(
    solver: &mut Solver<Octagon>,
    problem: &Problem,
    budget: u32,
    output: &mut Output,
)
    ensures { Appends output.old output.new (let m = memory octagon_model (octagon_model.start problem.now.home) (room_in (length (lines_in output.old).output)) in answered_in octagon_model (world_of solver.old m.rules m.checkpoints m.stack) m.out (rules_in problem.now) budget) }
{
    let shape = Octagon::start(&problem.home);
    let mut rules = [no_rule(); 32];
    let mut checkpoints = [Checkpoint { shape, rules: 0 }; 4];
    let mut stack = [shape; 169];
    let point = empty_point();
    let mut regions = [Region { shape, point }; 16];
    let room = region_room(output.size());
    let mut lent = Lent {
        rules: &mut rules,
        checkpoints: &mut checkpoints,
        stack: &mut stack,
        out: &mut regions[0..room],
    };
    search_in(solver, &mut lent, problem.stated(), budget, output);
}
