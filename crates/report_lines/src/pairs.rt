// The lines of a region's pairs: those limits that say more than the ranges do.
ghost use Rattle.std.specs.Prelude.{◌≡◌, ◌<◌, ◌+ℤ◌};
ghost use Rattle.interface.specs.Numbers.{half};
ghost use Rattle.wire.specs.Appending.{Appends};
ghost use Rattle.report_lines.specs.RegionFrames.{ordered, tells_more, pair_written, pair_frame, pair_at, pair_frames};

use interface::node::opposite;
use interface::reading::Reading;
use wire::output::Output;
use wire::words::nodes_frame;

// Each pair of nodes is written once, and none with its opposite.
fn is_ordered(p: u8, q: u8) -> bool
    ensures { result ≡ ordered p q }
{
    p < q && q != opposite(p)
}

// What the ranges alone say of two nodes.
fn half_sum(first: i32, second: i32) -> i64
    ensures { result ≡ half (first +ℤ second) }
{
    (i64::from(first) + i64::from(second)).div_euclid(2)
}

fn tells_more(reading: &Reading, p: u8, q: u8) -> bool
    ensures { result ≡ tells_more reading.now p q }
{
    let (p, q) = (u16::from(p), u16::from(q));
    i64::from(reading.limit(p, q)) < half_sum(reading.limit(p, p), reading.limit(q, q))
}

fn is_written(reading: &Reading, p: u8, q: u8) -> bool
    ensures { result ≡ pair_written reading.now p q }
{
    is_ordered(p, q) && u16::from(q) < 2 * u16::from(reading.n) && tells_more(reading, p, q)
}

fn pair_bytes(reading: &Reading, p: u8, q: u8) -> [u8; 7]
    ensures { result ≡ pair_frame reading.now p q }
{
    let limit = reading.limit(u16::from(p), u16::from(q));
    nodes_frame(2, p, q, limit)
}

// The pair that stands at place k of a reading, if it is written.
fn put_pair(out: &mut Output, reading: &Reading, k: u16)
    requires { k < 256 }
    ensures { Appends out.old out.new (pair_at reading.now k) }
{
    let p = (k / 16) as u8;
    let q = (k % 16) as u8;
    if is_written(reading, p, q) {
        out.put_line(&pair_bytes(reading, p, q));
    }
}

// Ascending by the first node, and then by the second.
pub fn put_pairs(out: &mut Output, reading: &Reading)
    ensures { Appends out.old out.new (pair_frames reading.now) }
{
    for k in 0..256u16 {
        put_pair(out, reading, k);
    }
}
