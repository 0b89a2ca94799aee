// The laws of the model, each as the contract of a function, for every shape and rule.
ghost use Rattle.search_theory.specs.Promise.{Promise};

use interface::rule::Rule;
use interface::shape::Shape;

// After any call on any history of calls, refused ones among them, all statements of the promise hold.
pub fn every_sequence_of_calls<S: Shape, R: Rule>(_shape: &S, _rule: &R)
    ensures { Promise S.model R.model }
{}
