// The interval box: a shape that keeps one range for each setting.
#![tactic(auto)]

ghost use Rattle.intervals.specs.Splits.{SplitByCuts};

pub mod interval_box;

// The parts of an open box are what two cuts leave of it.
pub fn split_by_cuts()
    ensures { SplitByCuts }
{}
