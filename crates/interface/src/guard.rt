// One guard for every rule: a record that fails its check answers by that alone, any other as its core does.
ghost use Rattle.std.specs.Prelude.{◌≡◌, [], ◌∷◌};
ghost use Rattle.interface.specs.Grounds.{first_fault};
ghost use Rattle.interface.specs.Guards.{CoreModel, CoreLaws, guarded};
ghost use Rattle.interface.specs.GuardsLemmas.{guarded_laws};
ghost use Rattle.interface.specs.Points.{values_of};

use super::cut::Cut;
use super::fault::RecordFault;
use super::point::Point;
use super::reading::Reading;
use super::rule::Rule;
use super::verdict::Verdict;

// Refused with the fault where its ground holds.
pub fn refuse<F: Copy>(ground: bool, fault: F) -> Result<(), F>
    ensures { result ≡ first_fault ((ground, fault) ∷ []) }
{
    if ground { Err(fault) } else { Ok(()) }
}

// The core of a rule: its grounds for a refusal, and its answers on a record that they accept.
pub trait Core: Copy {
    // what each call answers
    ghost core: { CoreModel Self };

    // The first ground that refuses the record on a line of n settings.
    fn check_grounds(&self, n: u8) -> Result<(), RecordFault>
        ensures { result ≡ first_fault (core.grounds n self.now) };

    // Whether the point meets the rule, by plain arithmetic.
    fn met_by(&self, point: &Point) -> bool
        ensures { result ≡ core.meets self.now (values_of point.now) };

    // Whether the limits tell that no point within them meets the rule.
    fn none_within(&self, reading: &Reading) -> bool
        ensures { result ≡ core.none_within self.now reading.now };

    // Whether the limits tell that every point within them meets it.
    fn all_within(&self, reading: &Reading) -> bool
        ensures { result ≡ core.all_within self.now reading.now };

    // The cut that every point that meets the rule meets, where there is one.
    // With no body of its own, since what it answers is each core's.
    fn standing_cut(&self) -> Option<Cut>
        ensures { result ≡ core.standing self.now };

    // Cut 0, 1 or 2 that every point within the limits that meets the rule meets, where there is one. By number, since
    // each is asked on the limits that the one before it left.
    fn proposed_cut(&self, reading: &Reading, i: u8) -> Option<Cut>
        ensures { result ≡ core.proposed self.now reading.now i };

    // what each implementation proves of its answers
    ghost laws: { CoreLaws core };
}

// Every core is a rule.
impl<C: Core> Rule for C {
    ghost model = { guarded C.core };

    ghost laws = { guarded_laws C.core C.laws };

    fn check(&self, n: u8) -> Result<(), RecordFault> {
        self.check_grounds(n)
    }

    fn meets(&self, n: u8, point: &Point) -> bool {
        self.check_grounds(n).is_ok() && self.met_by(point)
    }

    // Nothing is tried before all.
    fn judge(&self, reading: &Reading) -> Verdict {
        if self.check_grounds(reading.n).is_err() || self.none_within(reading) {
            Verdict::Nothing
        } else if self.all_within(reading) {
            Verdict::All
        } else {
            Verdict::Unknown
        }
    }

    fn standing(&self, n: u8) -> Option<Cut> {
        self.check_grounds(n).ok()?;
        self.standing_cut()
    }

    fn proposed(&self, reading: &Reading, i: u8) -> Option<Cut> {
        self.check_grounds(reading.n).ok()?;
        self.proposed_cut(reading, i)
    }
}
