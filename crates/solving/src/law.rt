// What the calls that solve a problem come to, as the contract of a function, for every shape and rule.
ghost use Rattle.solving.specs.Solving.{SolvesTruly};

use interface::rule::Rule;
use interface::shape::Shape;

// A home and rules that pass their checks, at most 32, with room for them: what is handed out is true.
pub fn solves_truly<S: Shape, R: Rule>(_shape: &S, _rule: &R)
    ensures { SolvesTruly S.model R.model }
{}
