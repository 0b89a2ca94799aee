// What a rule means: a set of points, judged on the limits of a shape.
ghost use Rattle.std.specs.Prelude.{◌≡◌};
ghost use Rattle.interface.specs.Points.{values_of};
ghost use Rattle.interface.specs.Rules.{RuleModel, RuleLaws};

use super::cut::Cut;
use super::fault::RecordFault;
use super::point::Point;
use super::reading::Reading;
use super::verdict::Verdict;

pub trait Rule: Copy {
    // what each call answers
    ghost model: { RuleModel Self };

    // Whether the record makes sense on a line of n settings.
    fn check(&self, n: u8) -> Result<(), RecordFault>
        ensures { result ≡ model.check n self.now };

    // Whether the point meets the rule, by plain arithmetic.
    fn meets(&self, n: u8, point: &Point) -> bool
        ensures { result ≡ model.meets n self.now (values_of point.now) };

    // What the limits tell of the points within them.
    fn judge(&self, reading: &Reading) -> Verdict
        ensures { result ≡ model.judge self.now reading.now };

    // The cut that every point that meets the rule meets, where there is one.
    fn standing(&self, n: u8) -> Option<Cut>
        ensures { result ≡ model.standing n self.now };

    // Cut 0, 1 or 2 that every point within the limits that meets the rule meets, where there is one. By number, since
    // each is asked on the limits that the one before it left.
    fn proposed(&self, reading: &Reading, i: u8) -> Option<Cut>
        ensures { result ≡ model.proposed self.now reading.now i };

    // what each implementation proves of its answers
    ghost laws: { RuleLaws model };
}
