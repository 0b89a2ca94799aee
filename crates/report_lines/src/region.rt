// The lines of a region: its point, its ranges and its pairs.
ghost use Rattle.std.specs.Prelude.{◌≤◌};
ghost use Rattle.wire.specs.Appending.{lines_in, lines_size, Appends, WrittenWhole};
ghost use Rattle.report_lines.specs.PairLaws.{PairsTold};
ghost use Rattle.report_lines.specs.RegionFrames.{pair_frames, region_frames};

use super::pairs::put_pairs;
use super::point_line::put_point;
use super::ranges::put_ranges;
use interface::point::Point;
use interface::reading::Reading;
use wire::output::Output;

// Appends a region's lines. They have at most 1,882 bytes, and where there is room for them, all are written; a line
// that has no room is left out.
#[tactic(auto, using(crate::proofs::Bounds::region_bound, crate::proofs::Telling::pairs_told))]
pub fn put_region(out: &mut Output, reading: &Reading, point: &Point)
    ensures appends { Appends out.old out.new (region_frames reading.now point.now) }
    ensures whole { WrittenWhole (lines_in out.old) (region_frames reading.now point.now) (lines_in out.new) }
    ensures bound { lines_size (region_frames reading.now point.now) ≤ 1882 }
    ensures pairs { PairsTold reading.now (pair_frames reading.now) }
{
    put_point(out, point);
    put_ranges(out, reading);
    put_pairs(out, reading);
}
