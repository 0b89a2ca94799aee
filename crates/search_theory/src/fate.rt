// What becomes of a region that a step takes.
use interface::point::Point;

// Dropped: no point of it meets the rules. HandedOut: every point does, and this is one. Split: neither is known.
#[derive(Clone, Copy)]
pub enum Fate {
    Dropped,
    HandedOut(Point),
    Split,
}
