// The apart rule: two settings keep a distance.
ghost use Rattle.std.specs.Prelude.{◌≡◌};
ghost use Rattle.wire.specs.Frames.{by_table};
ghost use Rattle.rules.specs.Aparts.{apart_codec, apart_core, apart_cut, least_gap, greatest_gap};
ghost use Rattle.rules.specs.ApartsLemmas.{apart_core_laws, apart_trips};

use interface::cut::Cut;
use interface::fault::RecordFault;
use interface::guard::{Core, refuse};
use interface::point::Point;
use interface::reading::Reading;
use rule_base::bounds::{cut_at, gap, negative};
use wire::bytes::{byte_at, i32_at};
use wire::frame::{Frame, FrameKind};
use wire::output::Output;
use wire::words::nodes_frame;

// Settings a and b differ by at least d.
#[derive(Clone, Copy)]
pub struct ApartRule {
    pub a: u8,
    pub b: u8,
    pub d: i32,
}

impl ApartRule {
    // The difference a - b is at least this.
    fn least_gap(&self, reading: &Reading) -> i64
        ensures { result ≡ least_gap self.now reading.now }
    {
        negative(reading.limit(2 * u16::from(self.a) + 1, 2 * u16::from(self.b)))
    }

    // The difference a - b is at most this.
    fn greatest_gap(&self, reading: &Reading) -> i64
        ensures { result ≡ greatest_gap self.now reading.now }
    {
        i64::from(reading.limit(2 * u16::from(self.a), 2 * u16::from(self.b) + 1))
    }

    // The difference a - b at most -d, as a cut, where it cannot reach d, else at least d where it cannot reach -d.
    fn cut(&self, reading: &Reading) -> Option<Cut>
        ensures { result ≡ apart_cut self.now reading.now }
    {
        let a = 2 * u16::from(self.a);
        let b = 2 * u16::from(self.b);
        let bound = negative(self.d);
        if self.greatest_gap(reading) < i64::from(self.d) {
            cut_at(a, b + 1, bound)
        } else if bound < self.least_gap(reading) {
            cut_at(a + 1, b, bound)
        } else {
            None
        }
    }
}

impl Core for ApartRule {
    ghost core = { apart_core };

    ghost laws = { apart_core_laws };

    fn check_grounds(&self, n: u8) -> Result<(), RecordFault> {
        refuse(self.a >= n, RecordFault::Node(2))?;
        refuse(self.b >= n, RecordFault::Node(3))?;
        refuse(self.b == self.a, RecordFault::Clash(3))?;
        refuse(!(1..=2_000_000).contains(&self.d), RecordFault::Number(4))
    }

    fn met_by(&self, point: &Point) -> bool {
        let gap = gap(point.setting(self.a), point.setting(self.b));
        i64::from(self.d) <= gap || gap <= negative(self.d)
    }

    fn none_within(&self, reading: &Reading) -> bool {
        self.greatest_gap(reading) < i64::from(self.d) && negative(self.d) < self.least_gap(reading)
    }

    fn all_within(&self, reading: &Reading) -> bool {
        i64::from(self.d) <= self.least_gap(reading)
            || self.greatest_gap(reading) <= negative(self.d)
    }

    fn standing_cut(&self) -> Option<Cut> {
        None
    }

    // By number: each cut is asked on the limits that the one before it left.
    fn proposed_cut(&self, reading: &Reading, i: u8) -> Option<Cut> {
        if i == 0 { self.cut(reading) } else { None }
    }
}

impl Frame for ApartRule {
    ghost frame = { by_table apart_codec };

    ghost laws = { apart_trips };

    fn kind() -> FrameKind {
        FrameKind {
            code: 5,
            base: 7,
            each: 0,
        }
    }

    fn read(digits: &[u8]) -> ApartRule {
        ApartRule {
            a: byte_at(digits, 1),
            b: byte_at(digits, 2),
            d: i32_at(digits, 3),
        }
    }

    fn write(&self, out: &mut Output) -> bool {
        out.put_line(&nodes_frame(5, self.a, self.b, self.d))
    }
}
