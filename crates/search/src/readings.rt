// Readings of a shape.
ghost use Rattle.std.specs.Prelude.{◌≡◌};
ghost use Rattle.search_theory.specs.Regions.{read};

use interface::reading::Reading;
use interface::shape::Shape;

// `read` is shut: where `shape.reading()` stands in its place, the goals compute all 256 limits and stay open.
pub(crate) fn take_reading<S: Shape>(shape: &S) -> Reading
    ensures { result ≡ read S.model shape.now }
{
    shape.reading()
}
