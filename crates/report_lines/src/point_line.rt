// The line of a region's point: 10, the number of settings, then the value of each, four bytes each.
ghost use Rattle.std.specs.Prelude.{[], ◌∷◌};
ghost use Rattle.wire.specs.Appending.{Appends};
ghost use Rattle.report_lines.specs.RegionFrames.{point_frame};

use interface::point::Point;
use wire::output::Output;
use wire::words::words_frame;

// Where n is above 8, the eight values that a point has are written.
pub fn put_point(out: &mut Output, point: &Point)
    ensures { Appends out.old out.new (point_frame point.now ∷ []) }
{
    let bytes: [u8; 34] = words_frame(0x10, point.n, &point.values);
    out.put_line(&bytes[..2 + 4 * point.settings() as usize]);
}
