// What a frame is: a record that a line of digits writes.
ghost use Rattle.std.specs.Prelude.{◌≡◌, [], ◌∷◌};
ghost use Rattle.wire.specs.Appending.{lines_in, has_room, Appends};
ghost use Rattle.wire.specs.Bytes.{unhex};
ghost use Rattle.wire.specs.Frames.{FrameModel, FrameLaws};

use super::output::Output;

// A frame's first byte, and how many bytes it has: `base` and, for each that its second byte counts, `each` more. The
// code is the byte and no enum: kinds are open, and each record names its own.
#[derive(Clone, Copy)]
pub struct FrameKind {
    pub code: u8,
    pub base: u16,
    pub each: u16,
}

pub trait Frame: Copy {
    // what each call answers
    ghost frame: { FrameModel Self };

    fn kind() -> FrameKind
        ensures { result ≡ frame.kind };

    // The record that a line's digits give.
    fn read(digits: &[u8]) -> Self
        ensures { result ≡ frame.read (unhex digits.now) };

    // Appends the record's line, and answers whether it has room; where it has none, nothing is written.
    fn write(&self, out: &mut Output) -> bool
        ensures room { result ≡ has_room (lines_in out.old) (frame.write self.now) }
        ensures appends { Appends out.old out.new (frame.write self.now ∷ []) };

    // both round trips
    ghost laws: { FrameLaws frame };
}
