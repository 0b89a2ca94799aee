// The sum rule's frame: 03, three times setting and coefficient, one byte each, then t.
ghost use Rattle.std.specs.Prelude.{◌≡◌, [], ◌∷◌};
ghost use Rattle.std.specs.Int.{w8};
ghost use Rattle.std.proofs.Common.{of_z};
ghost use Rattle.sum_rule.specs.Sums.{sum_codec, read_term};
ghost use Rattle.wire.specs.Bytes.{unhex};
ghost use Rattle.wire.specs.Frames.{by_table};
ghost use Rattle.sum_rule.specs.SumsLemmas.{sum_trips};

use super::sum::{SumRule, Term};
use wire::bytes::{byte_at, i8_at, i32_at, i32_bytes};
use wire::frame::{Frame, FrameKind};
use wire::output::Output;

impl Term {
    fn bytes(&self) -> [u8; 2]
        ensures { result ≡ self.now.setting ∷ of_z w8 self.now.coefficient ∷ [] }
    {
        [self.setting, self.coefficient.cast_unsigned()]
    }
}

impl SumRule {
    fn bytes(&self) -> [u8; 11]
        ensures { result ≡ (by_table sum_codec).write self.now }
    {
        let [a, k] = self.first.bytes();
        let [b, l] = self.second.bytes();
        let [c, m] = self.third.bytes();
        let mut bytes = [3, a, k, b, l, c, m, 0, 0, 0, 0];
        bytes[7..].copy_from_slice(&i32_bytes(self.t));
        bytes
    }
}

// The term whose setting is byte i and whose coefficient is the byte behind it.
fn term_at(digits: &[u8], i: u8) -> Term
    ensures { result ≡ read_term (unhex digits.now) i }
{
    let place = usize::from(i);
    Term {
        setting: byte_at(digits, place),
        coefficient: i8_at(digits, place + 1),
    }
}

impl Frame for SumRule {
    ghost frame = { by_table sum_codec };

    ghost laws = { sum_trips };

    fn kind() -> FrameKind {
        FrameKind {
            code: 3,
            base: 11,
            each: 0,
        }
    }

    fn read(digits: &[u8]) -> SumRule {
        SumRule {
            first: term_at(digits, 1),
            second: term_at(digits, 3),
            third: term_at(digits, 5),
            t: i32_at(digits, 7),
        }
    }

    fn write(&self, out: &mut Output) -> bool {
        out.put_line(&self.bytes())
    }
}
