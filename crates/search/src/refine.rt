// How a region is narrowed: by rounds of the cuts that the rules propose.
ghost use Rattle.std.specs.Prelude.{◌≡◌, true};
ghost use Rattle.search_theory.specs.Regions.{is_open, tighten, refine, read};
ghost use Rattle.search_theory.specs.RegionLaws.{Refined};

use super::readings::take_reading;
use interface::extent::Extent;
use interface::reading::Reading;
use interface::rule::Rule;
use interface::shape::Shape;

// Applies cut i of a rule to an open region. The reading is taken again only where a cut was applied.
fn apply<S: Shape, R: Rule>(rule: &R, i: u8, shape: &mut S, reading: &mut Reading)
    requires { (reading.old ≡ read S.model shape.old) × (is_open (S.model.extent shape.old) ≡ true) }
    ensures after { shape.new ≡ tighten S.model R.model rule.now i shape.old }
    ensures fresh { reading.new ≡ read S.model shape.new }
{
    if let Some(cut) = rule.proposed(reading, i) {
        shape.cut(cut);
        *reading = take_reading(shape);
    }
}

// Up to eight rounds over the rules and their three cuts, until one alters no limit or the region is no longer open:
// every held point that meets the rules stays, and none is added.
pub fn refine<S: Shape, R: Rule>(rules: &[R], shape: S) -> S
    ensures value { result ≡ refine S.model R.model rules.now shape }
    ensures narrows { Refined S.model R.model rules.now shape result }
{
    let mut region = shape;
    let mut reading = take_reading(&region);
    'rounds: for _round in 0..8u8 {
        let before = reading;
        'rules: for rule in rules {
            'cuts: for i in 0..3u8 {
                if region.extent() != Extent::Open {
                    break 'rounds;
                }
                apply(rule, i, &mut region, &mut reading);
            }
        }
        if before.limits == reading.limits {
            break 'rounds;
        }
    }
    region
}
