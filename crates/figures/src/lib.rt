// Worked numbers of the definitions, all in one statement. The function does nothing; its contract is the statement.
#![tactic(auto)]

ghost use Rattle.figures.specs.Figures.{Figures};

// Halvings, proposed cuts, a box's limit, the octagon's limits, and a pair at the border of what is accepted.
pub fn the_figures_hold()
    ensures { Figures }
{}
