// The grounds on which a frame is refused before its fields are read.
ghost use Rattle.std.specs.Prelude.{◌≡◌, Some};
ghost use Rattle.interface.specs.Grounds.{first_fault};
ghost use Rattle.wire.specs.Bytes.{unhex};
ghost use Rattle.wire.specs.Kinds.{find_kind, right_size, frame_grounds, next_frame};
ghost use Rattle.wire.specs.Readers.{left_of, seen, advanced};
ghost use Rattle.wire.specs.Text.{next_line};

use super::bytes::byte_at;
use super::frame::{Frame, FrameKind};
use super::reader::Reader;
use interface::fault::FrameFault;
use interface::guard::refuse;
use interface::home::Home;

fn find_kind(kinds: &[FrameKind], code: u8) -> Option<FrameKind>
    ensures { result ≡ find_kind kinds.now code }
{
    kinds.iter().copied().find(|kind| kind.code == code)
}

// Whether the frame has as many bytes as its kind says, by its own second byte.
#[tactic(auto, using(crate::proofs::Hex::length_unhex))]
fn is_sized(kind: FrameKind, digits: &[u8]) -> bool
    ensures { result ≡ right_size (Some kind) (unhex digits.now) }
{
    digits.len() / 2 == kind.base as usize + kind.each as usize * byte_at(digits, 1) as usize
}

// Refused if its first byte is the code of none of the known kinds, if it is the first frame and no home or a later
// one and a home, or if it has another length than its kind asks for, in this order.
pub fn check_frame(digits: &[u8], first: bool, kinds: &[FrameKind]) -> Result<(), FrameFault>
    ensures { result ≡ first_fault (frame_grounds kinds.now first (unhex digits.now)) }
{
    let code = byte_at(digits, 0);
    let kind = find_kind(kinds, code).ok_or(FrameFault::Kind(1))?;
    refuse(first != (code == Home::kind().code), FrameFault::Order(1))?;
    refuse(!is_sized(kind, digits), FrameFault::Length(1))
}

// The next line of a text as a frame: its digits, or nothing where no byte is left. The reader has
// passed a line that the text's grounds accept, whatever the frame's grounds say.
pub fn next_frame<'a>(
    reader: &mut Reader<'a>,
    first: bool,
    kinds: &[FrameKind],
) -> Result<Option<&'a [u8]>, FrameFault>
    ensures value { seen result ≡ next_frame kinds.now first (next_line (left_of reader.old)) }
    ensures after { reader.new ≡ advanced reader.old }
{
    let next = reader.next_line()?;
    let Some(line) = next else {
        return Ok(None);
    };
    check_frame(line, first, kinds)?;
    Ok(Some(line))
}
