// The octagon's limits: what is proved of their definition. Each function does nothing; its contract is a theorem.
#![tactic(auto)]

ghost use Rattle.octagon_theory.specs.Theorems.{LeastSumsAreLeast, EveryLimitIsReached, VoidIsNoPoint, OnePointIsLeft, LimitsHoldThePoints, LimitsCanBeShown, LimitsAreTight, PointsDecideLimits, HomeAlone, OneCutAtATime, LeastValuesAreLeast};

// The form of the least sums that computes gives the least sum of a chain.
pub fn least_sums_are_least()
    ensures { LeastSumsAreLeast }
{}

// Unless void, a limit on the line is the greatest sum of its nodes' values over the points within home and every cut, and some such point reaches it.
pub fn every_limit_is_reached()
    ensures { EveryLimitIsReached }
{}

// Void exactly if no point lies within home and every cut.
pub fn void_is_no_point()
    ensures { VoidIsNoPoint }
{}

// Unless void, the points that keep every limit are those within home and every cut.
pub fn limits_hold_the_points()
    ensures { LimitsHoldThePoints }
{}

// Where no range has two values there is one point, and the limits are its sums.
pub fn one_point_is_left()
    ensures { OnePointIsLeft }
{}

// Limits lie within two million, are symmetric, and even on the diagonal.
pub fn limits_can_be_shown()
    ensures { LimitsCanBeShown }
{}

// Unless void, the limits are tightly closed.
pub fn limits_are_tight()
    ensures { LimitsAreTight }
{}

// Homes and cuts with the same points have the same limits.
pub fn points_decide_limits()
    ensures { PointsDecideLimits }
{}

// A home alone has a point, and its limits are sums of greatest values.
pub fn home_alone()
    ensures { HomeAlone }
{}

// One cut more, from the limits before it: nothing changes, no point is left, or the least of five ways is rounded and joined.
pub fn one_cut_at_a_time()
    ensures { OneCutAtATime }
{}

// Unless void, the least values one after the other are the least point.
pub fn least_values_are_least()
    ensures { LeastValuesAreLeast }
{}
