// What becomes of a refined region.
ghost use Rattle.std.specs.Prelude.{◌≡◌};
ghost use Rattle.search_theory.specs.Regions.{judged, classify};
ghost use Rattle.search_theory.specs.RegionLaws.{Classified};

use super::readings::take_reading;
use interface::extent::Extent;
use interface::reading::Reading;
use interface::rule::Rule;
use interface::shape::Shape;
use interface::verdict::Verdict;
use search_theory::fate::Fate;

// What all rules say of the points within a reading: nothing if one does, all if every one does.
fn judge_all<R: Rule>(rules: &[R], reading: &Reading) -> Verdict
    ensures { result ≡ judged R.model rules.now reading.now }
{
    let mut verdict = Verdict::All;
    for rule in rules {
        match rule.judge(reading) {
            Verdict::Nothing => return Verdict::Nothing,
            Verdict::Unknown => verdict = Verdict::Unknown,
            Verdict::All => {}
        }
    }
    verdict
}

// Apart from `classify`, so that what a fate means is proved from this equation once, and not at each way out.
fn fate<S: Shape, R: Rule>(rules: &[R], shape: &S) -> Fate
    ensures { result ≡ classify S.model R.model rules.now shape.now }
{
    if shape.extent() == Extent::Void {
        return Fate::Dropped;
    }
    match judge_all(rules, &take_reading(shape)) {
        Verdict::Nothing => Fate::Dropped,
        Verdict::Unknown => Fate::Split,
        Verdict::All => shape.offer().map_or(Fate::Split, Fate::HandedOut),
    }
}

// Dropped where no point of the region meets the rules, handed out where every one does and one is offered, else split.
pub fn classify<S: Shape, R: Rule>(rules: &[R], shape: &S) -> Fate
    ensures value { result ≡ classify S.model R.model rules.now shape.now }
    ensures truth { Classified S.model R.model rules.now shape.now result }
{
    fate(rules, shape)
}
