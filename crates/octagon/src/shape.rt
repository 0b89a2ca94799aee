// The octagon answers as a shape; what it answers is what the limits of its home and its cuts define.
ghost use Rattle.std.specs.Prelude.{◌≡◌, [], ◌∷◌, ◌++◌, Decides};
ghost use Rattle.halving.specs.Halvings.{halvings_of};
ghost use Rattle.interface.specs.Points.{values_of};
ghost use Rattle.interface.specs.Shapes.{Exact, built};
ghost use Rattle.octagon_theory.specs.Limits.{void, limit};
ghost use Rattle.octagon_theory.specs.Theorems.{Within};
ghost use Rattle.octagon.specs.Definitions.{ForMade, LeastOffered, SplitInTwo, RangesAreThoseOfLimits, MadeIsTight, LimitsTellApart};
ghost use Rattle.octagon.specs.Octagons.{octagon_model};
ghost use Rattle.octagon.specs.Ranges.{widths, extent_by};
ghost use Rattle.octagon.specs.Laws.{octagon_laws};

use super::matrix::Octagon;
use interface::cut::Cut;
use interface::extent::Extent;
use interface::home::Home;
use interface::point::Point;
use interface::shape::Shape;

// `from_home`, `parts`, `extent_of`, `holds_point`, `least_point` and `count_halvings` stay functions of their own: each
// promises its equation alone, and the clause `made` here is proved from that.
impl Shape for Octagon {
    ghost model = { octagon_model };

    ghost laws = { octagon_laws };

    fn start(home: &Home) -> Octagon
        ensures value { result ≡ octagon_model.start home.now }
        ensures made { result ≡ built octagon_model home.now [] }
    {
        Octagon::from_home(home)
    }

    fn n(&self) -> u8
        ensures value { result ≡ octagon_model.n self.now }
        ensures made { ForMade self.now (λ h ts. result ≡ h.n) }
    {
        self.n
    }

    fn cut(&mut self, cut: Cut)
        ensures value { self.new ≡ octagon_model.cut self.old cut }
        ensures made { ForMade self.old (λ h ts. self.new ≡ built octagon_model h (ts ++ (cut ∷ []))) }
    {
        self.cut_by(cut.first(), cut.second(), cut.bound());
    }

    #[tactic(auto, using(crate::proofs::Defined::split_defined))]
    fn split(&self) -> (Octagon, Octagon)
        ensures value { result ≡ (octagon_model.lower self.now, octagon_model.upper self.now) }
        ensures made { ForMade self.now (λ h ts. SplitInTwo h ts result) }
    {
        self.parts()
    }

    #[tactic(auto, using(crate::proofs::Defined::extent_defined))]
    fn extent(&self) -> Extent
        ensures value { result ≡ octagon_model.extent self.now }
        ensures made { ForMade self.now (λ h ts. result ≡ extent_by (void h ts) (limit h ts)) }
    {
        self.extent_of()
    }

    #[tactic(auto, using(crate::proofs::Defined::limit_defined))]
    fn limit(&self, p: u8, q: u8) -> i32
        ensures value { result ≡ octagon_model.limit self.now p q }
        ensures made { ForMade self.now (λ h ts. result ≡ limit h ts p q) }
    {
        self.limit_of(p, q)
    }

    fn holds(&self, point: &Point) -> bool
        ensures value { result ≡ octagon_model.holds self.now (values_of point.now) }
        ensures made { ForMade self.now (λ h ts. Decides result (Within h ts (values_of point.now))) }
    {
        self.holds_point(point)
    }

    #[tactic(auto, using(crate::proofs::Defined::offer_defined))]
    fn offer(&self) -> Option<Point>
        ensures value { result ≡ octagon_model.offer self.now }
        ensures made { ForMade self.now (λ h ts. LeastOffered h ts result) }
    {
        self.least_point()
    }

    #[tactic(auto, using(crate::proofs::Defined::halvings_defined))]
    fn halvings(&self) -> u32
        ensures value { result ≡ octagon_model.halvings self.now }
        ensures made { ForMade self.now (λ h ts. result ≡ halvings_of (widths (limit h ts))) }
    {
        self.count_halvings()
    }
}

// Built from a home by cuts, an octagon holds exactly the points of home that meet every cut, reaches each limit, and is
// void if it holds no point.
#[tactic(auto, using(crate::specs::Laws::octagon_exact))]
pub fn octagon_is_exact()
    ensures { Exact octagon_model }
{}

// The range of a setting is that of the limits.
#[tactic(auto, using(crate::proofs::Defined::ranges_are_those_of_limits))]
pub fn ranges_are_those_of_limits()
    ensures { RangesAreThoseOfLimits }
{}

// Every octagon that is made, cut and split is void or tightly closed.
#[tactic(auto, using(crate::proofs::Defined::made_is_tight))]
pub fn made_is_tight()
    ensures { MadeIsTight }
{}

// Made octagons with the same settings, extent and limits are the same.
#[tactic(auto, using(crate::proofs::Defined::limits_tell_apart))]
pub fn limits_tell_apart()
    ensures { LimitsTellApart }
{}
