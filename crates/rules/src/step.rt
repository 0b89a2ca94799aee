// The step rule: a setting moves in steps of m.
ghost use Rattle.std.specs.Prelude.{◌≡◌, ◌^◌, ◌≤◌, ◌-ℤ◌, unsigned_abs};
ghost use Rattle.wire.specs.Frames.{by_table};
ghost use Rattle.rules.specs.Steps.{step_codec, step_core, rest, leaves, last_up_to, first_from, Divides, LastUpTo, FirstFrom};
ghost use Rattle.rules.specs.StepsLemmas.{step_core_laws, step_trips};

use interface::cut::Cut;
use interface::fault::RecordFault;
use interface::guard::{Core, refuse};
use interface::point::Point;
use interface::reading::Reading;
use rule_base::bounds::{bounded_by, gap};
use wire::bytes::{byte_at, i32_at};
use wire::frame::{Frame, FrameKind};
use wire::output::Output;
use wire::words::words_frame;

// Setting a divided by m, rounded down, leaves r.
#[derive(Clone, Copy)]
pub struct StepRule {
    pub a: u8,
    pub m: i32,
    pub r: i32,
}

// What z leaves when it is divided by m, 0 where m is no divisor.
#[tactic(auto, unfolding(crate::specs::Steps::rest))]
fn remainder(m: i32, z: i64) -> i64
    ensures value { result ≡ rest m z }
    ensures bound { unsigned_abs result ≤ 2 ^ 31 }
{
    if m <= 0 {
        return 0;
    }
    z.rem_euclid(i64::from(m))
}

impl StepRule {
    fn is_left_by(&self, z: i32) -> bool
        ensures { result ≡ leaves self.now z }
    {
        remainder(self.m, i64::from(z)) == i64::from(self.r)
    }

    // What x - y leaves when it is divided by m.
    fn rest_of(&self, x: i32, y: i32) -> i64
        ensures value { result ≡ rest self.now.m (x -ℤ y) }
        ensures bound { unsigned_abs result ≤ 2 ^ 31 }
    {
        remainder(self.m, gap(x, y))
    }

    // Apart from `greatest_up_to`, whose law is proved from this equation: so a wrong body is refused here, at the code.
    fn last_up_to(&self, z: i32) -> i64
        ensures { result ≡ last_up_to self.now z }
    {
        i64::from(z) - self.rest_of(z, self.r)
    }

    // Apart from `least_from`, for the same reason.
    fn first_from(&self, z: i32) -> i64
        ensures value { result ≡ first_from self.now z }
        ensures bound { unsigned_abs result ≤ 2 ^ 33 }
    {
        i64::from(z) + self.rest_of(self.r, z)
    }

    // The greatest value up to z that leaves r.
    pub fn greatest_up_to(&self, z: i32) -> i64
        ensures value { result ≡ last_up_to self.now z }
        ensures last { Divides self.now → LastUpTo self.now z result }
    {
        self.last_up_to(z)
    }

    // The least value from z that leaves r.
    pub fn least_from(&self, z: i32) -> i64
        ensures value { result ≡ first_from self.now z }
        ensures bound { unsigned_abs result ≤ 2 ^ 33 }
        ensures first { Divides self.now → FirstFrom self.now z result }
    {
        self.first_from(z)
    }
}

impl Core for StepRule {
    ghost core = { step_core };

    ghost laws = { step_core_laws };

    fn check_grounds(&self, n: u8) -> Result<(), RecordFault> {
        refuse(self.a >= n, RecordFault::Node(2))?;
        refuse(!(2..=1_000_000).contains(&self.m), RecordFault::Number(3))?;
        refuse(!(0..self.m).contains(&self.r), RecordFault::Number(7))
    }

    fn met_by(&self, point: &Point) -> bool {
        self.is_left_by(point.setting(self.a))
    }

    fn none_within(&self, reading: &Reading) -> bool {
        self.greatest_up_to(reading.high(self.a)) < i64::from(reading.low(self.a))
    }

    fn all_within(&self, reading: &Reading) -> bool {
        let low = reading.low(self.a);
        low == reading.high(self.a) && self.is_left_by(low)
    }

    fn standing_cut(&self) -> Option<Cut> {
        None
    }

    // By number: each cut is asked on the limits that the one before it left.
    #[tactic(auto, using(crate::proofs::Negatives::negative_back))]
    fn proposed_cut(&self, reading: &Reading, i: u8) -> Option<Cut> {
        let node = 2 * u16::from(self.a);
        match i {
            0 => bounded_by(node, self.greatest_up_to(reading.high(self.a))),
            1 => bounded_by(node + 1, -self.least_from(reading.low(self.a))),
            _ => None,
        }
    }
}

impl StepRule {
    fn bytes(&self) -> [u8; 10]
        ensures { result ≡ (by_table step_codec).write self.now }
    {
        words_frame(6, self.a, &[self.m, self.r])
    }
}

impl Frame for StepRule {
    ghost frame = { by_table step_codec };

    ghost laws = { step_trips };

    fn kind() -> FrameKind {
        FrameKind {
            code: 6,
            base: 10,
            each: 0,
        }
    }

    fn read(digits: &[u8]) -> StepRule {
        StepRule {
            a: byte_at(digits, 1),
            m: i32_at(digits, 2),
            r: i32_at(digits, 6),
        }
    }

    fn write(&self, out: &mut Output) -> bool {
        out.put_line(&self.bytes())
    }
}
