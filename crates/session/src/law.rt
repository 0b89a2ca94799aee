// The promise at each shape with the four rules joined. Each function does nothing; its contract is a theorem.
ghost use Rattle.intervals.specs.Model.{box_model};
ghost use Rattle.octagon.specs.Octagons.{octagon_model};
ghost use Rattle.rules.specs.Any.{any_model};
ghost use Rattle.search_theory.specs.Promise.{Promise};
ghost use Rattle.session.specs.Promised.{PromiseWhole};

// Everything that is promised, limits and refusals among it, at the octagon.
pub fn octagon_keeps_the_promise()
    ensures { PromiseWhole octagon_model any_model }
{}

// At the interval box everything that is promised of every shape; it is not exact, so nothing of limits that are reached.
pub fn interval_box_keeps_the_promise()
    ensures { Promise box_model any_model }
{}
