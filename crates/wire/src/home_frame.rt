// The home record's frame: 01, the number of settings, then the low and the high of each, four bytes each.
ghost use Rattle.std.specs.Prelude.{◌≡◌, ◌+◌, ◌*◌, ◌<◌};
ghost use Rattle.wire.specs.Bytes.{unhex};
ghost use Rattle.interface.specs.Homes.{span_or_0};
ghost use Rattle.wire.specs.HomeFrame.{low_in, high_in, home_word, home_words, home_frame};
ghost use Rattle.wire.specs.HomeTrips.{home_laws};

use super::bytes::{byte_at, i32_at};
use super::frame::{Frame, FrameKind};
use super::output::Output;
use super::words::words_frame;
use interface::home::{Home, Span};
use std::array;

// The low and the high of setting k, 0 past the first n. Written here, since the numbers come from the digits: one
// function with a closure for them is no plainer.
fn span(digits: &[u8], n: u8, k: u8) -> Span
    ensures { result ≡ span_or_0 n (low_in (unhex digits.now)) (high_in (unhex digits.now)) k }
{
    if k < n {
        Span {
            low: i32_at(digits, 2 + 8 * k as u16),
            high: i32_at(digits, 6 + 8 * k as u16),
        }
    } else {
        Span::default()
    }
}

// Low and high of each setting in turn.
fn home_word(home: &Home, k: usize) -> i32
    requires { k < 16 }
    ensures { result ≡ home_word home.now k }
{
    let span = home.spans[k / 2];
    if k % 2 == 0 { span.low } else { span.high }
}

fn home_words(home: &Home) -> [i32; 16]
    ensures { result ≡ home_words home.now }
{
    array::from_fn(|k| home_word(home, k))
}

impl Frame for Home {
    ghost frame = { home_frame };

    ghost laws = { home_laws };

    fn kind() -> FrameKind {
        FrameKind {
            code: 1,
            base: 2,
            each: 8,
        }
    }

    fn read(digits: &[u8]) -> Home {
        let n = byte_at(digits, 1);
        Home {
            n,
            spans: array::from_fn(|k| span(digits, n, k as u8)),
        }
    }

    fn write(&self, out: &mut Output) -> bool {
        let bytes: [u8; 66] = words_frame(1, self.n, &home_words(self));
        out.put_line(&bytes[..2 + 8 * self.n.min(8) as usize])
    }
}
