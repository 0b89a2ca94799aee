// The line of a region's ranges: a home frame, made from the limits.
ghost use Rattle.std.specs.Prelude.{◌≡◌, [], ◌∷◌};
ghost use Rattle.interface.specs.Homes.{span_or_0};
ghost use Rattle.interface.specs.Readings.{low_in, high_in};
ghost use Rattle.wire.specs.Appending.{Appends};
ghost use Rattle.report_lines.specs.RegionFrames.{ranges_of, ranges_frame};

use interface::home::{Home, Span};
use interface::reading::Reading;
use std::array;
use wire::frame::Frame;
use wire::output::Output;

// The least and the greatest value of a setting, 0 for one past the settings. A home that is read and a box ask the
// same of k, and take low and high from elsewhere: one function with a closure for them is no plainer.
fn range(reading: &Reading, k: u8) -> Span
    ensures { result ≡ span_or_0 reading.now.n (low_in reading.now) (high_in reading.now) k }
{
    if k < reading.n {
        Span {
            low: reading.low(k),
            high: reading.high(k),
        }
    } else {
        Span::default()
    }
}

fn ranges(reading: &Reading) -> Home
    ensures { result ≡ ranges_of reading.now }
{
    Home {
        n: reading.n,
        spans: array::from_fn(|k| range(reading, k as u8)),
    }
}

// Where n is above 8, the ranges of eight settings are written.
pub fn put_ranges(out: &mut Output, reading: &Reading)
    ensures { Appends out.old out.new (ranges_frame reading.now ∷ []) }
{
    ranges(reading).write(out);
}
