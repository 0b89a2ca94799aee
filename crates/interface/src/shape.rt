// What a shape means: a set of points, asked through these calls.
ghost use Rattle.std.specs.Prelude.{◌≡◌};
ghost use Rattle.interface.specs.Points.{values_of};
ghost use Rattle.interface.specs.Shapes.{ShapeModel, ShapeLaws, range_of, reading_of};

use super::cut::Cut;
use super::extent::Extent;
use super::home::Home;
use super::point::Point;
use super::reading::Reading;
use std::array;

pub trait Shape: Copy {
    // what each call answers
    ghost model: { ShapeModel Self };

    // The shape that holds the points of a home.
    fn start(home: &Home) -> Self
        ensures { result ≡ model.start home.now };

    // How many settings its points have.
    fn n(&self) -> u8
        ensures { result ≡ model.n self.now };

    // Takes a cut: held points that meet it stay, and none is added.
    fn cut(&mut self, cut: Cut)
        ensures { self.new ≡ model.cut self.old cut };

    // The lower and the upper part.
    fn split(&self) -> (Self, Self)
        ensures { result ≡ (model.lower self.now, model.upper self.now) };

    fn extent(&self) -> Extent
        ensures { result ≡ model.extent self.now };

    // No held point has v(p) + v(q) above this.
    fn limit(&self, p: u8, q: u8) -> i32
        ensures { result ≡ model.limit self.now p q };

    fn holds(&self, point: &Point) -> bool
        ensures { result ≡ model.holds self.now (values_of point.now) };

    // A held point, where the shape has one at hand.
    fn offer(&self) -> Option<Point>
        ensures { result ≡ model.offer self.now };

    // How often the shape can at most be split in a row.
    fn halvings(&self) -> u32
        ensures { result ≡ model.halvings self.now };

    // The range of a setting, lowest first.
    fn range(&self, setting: u8) -> (i32, i32)
        ensures { result ≡ range_of model self.now setting }
    {
        if setting >= 8 {
            return (0, 0);
        }
        let low = self.limit(2 * setting + 1, 2 * setting + 1).div_euclid(2);
        let high = self.limit(2 * setting, 2 * setting).div_euclid(2);
        (-low, high)
    }

    // All limits at once.
    fn reading(&self) -> Reading
        ensures { result ≡ reading_of model self.now }
    {
        Reading {
            n: self.n(),
            limits: array::from_fn(|k| self.limit((k / 16) as u8, (k % 16) as u8)),
        }
    }

    // what each implementation proves of its answers
    ghost laws: { ShapeLaws model };
}
