// What a search hands out.
use interface::point::Point;

// Every point that the shape holds meets every rule; `point` is one of them.
#[derive(Clone, Copy)]
pub struct Region<S> {
    pub shape: S,
    pub point: Point,
}
