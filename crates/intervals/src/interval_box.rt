// The interval box, as it lies in memory.
mod bound;
mod range;
pub mod shape;

use interface::home::Span;

// The first `n` spans count, and those past them are 0 in every box that is made. A void box holds no point, and its
// spans are all 0: they stand beside the flag and not in an `Option`, since a void box answers for its ranges too. `n` stands
// beside an array, since boxes are copied into lent slices and an ArrayVec is not Copy.
#[derive(Clone, Copy)]
pub struct IntervalBox {
    n: u8,
    void: bool,
    spans: [Span; 8],
}
