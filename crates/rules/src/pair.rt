// The pair rule: the values at two nodes add up to at most a number.
ghost use Rattle.std.specs.Prelude.{◌≡◌};
ghost use Rattle.wire.specs.Frames.{by_table};
ghost use Rattle.rules.specs.Pairs.{pair_codec, pair_core};
ghost use Rattle.rules.specs.PairsLemmas.{pair_core_laws, pair_trips};

use interface::cut::Cut;
use interface::fault::RecordFault;
use interface::guard::{Core, refuse};
use interface::node::opposite;
use interface::point::Point;
use interface::reading::Reading;
use rule_base::bounds::{cut_at, negative};
use wire::bytes::{byte_at, i32_at};
use wire::frame::{Frame, FrameKind};
use wire::output::Output;
use wire::words::nodes_frame;

// v(p) + v(q) is at most c.
#[derive(Clone, Copy, Default)]
pub struct PairRule {
    pub p: u8,
    pub q: u8,
    pub c: i32,
}

impl Core for PairRule {
    ghost core = { pair_core };

    ghost laws = { pair_core_laws };

    fn check_grounds(&self, n: u8) -> Result<(), RecordFault> {
        refuse(self.p / 2 >= n, RecordFault::Node(2))?;
        refuse(self.q / 2 >= n, RecordFault::Node(3))?;
        refuse(self.q == opposite(self.p), RecordFault::Clash(3))?;
        refuse(
            !(-2_000_000..=2_000_000).contains(&self.c),
            RecordFault::Number(4),
        )
    }

    fn met_by(&self, point: &Point) -> bool {
        point.at(self.p) + point.at(self.q) <= i64::from(self.c)
    }

    fn none_within(&self, reading: &Reading) -> bool {
        let p = u16::from(opposite(self.p));
        let q = u16::from(opposite(self.q));
        i64::from(self.c) < negative(reading.limit(p, q))
    }

    fn all_within(&self, reading: &Reading) -> bool {
        reading.limit(u16::from(self.p), u16::from(self.q)) <= self.c
    }

    fn standing_cut(&self) -> Option<Cut> {
        cut_at(u16::from(self.p), u16::from(self.q), i64::from(self.c))
    }

    // By number: each cut is asked on the limits that the one before it left.
    fn proposed_cut(&self, reading: &Reading, i: u8) -> Option<Cut> {
        if i == 0 { self.standing_cut() } else { None }
    }
}

impl Frame for PairRule {
    ghost frame = { by_table pair_codec };

    ghost laws = { pair_trips };

    fn kind() -> FrameKind {
        FrameKind {
            code: 2,
            base: 7,
            each: 0,
        }
    }

    fn read(digits: &[u8]) -> PairRule {
        PairRule {
            p: byte_at(digits, 1),
            q: byte_at(digits, 2),
            c: i32_at(digits, 3),
        }
    }

    fn write(&self, out: &mut Output) -> bool {
        out.put_line(&nodes_frame(2, self.p, self.q, self.c))
    }
}
