// The line that says why a text was refused: number, layer, line and place.
ghost use Rattle.std.specs.Prelude.{◌≡◌, [], ◌∷◌};
ghost use Rattle.wire.specs.Appending.{lines_in, has_room, Appends};
ghost use Rattle.wire.specs.FaultLine.{fault_line, fault_frame};

use super::bytes::u16_bytes;
use super::output::Output;
use interface::fault::{SolverFault, TextFault};

// A fault of the whole text names no line.
fn line_of(fault: SolverFault, line: u16) -> u16
    ensures { result ≡ fault_line fault line }
{
    if fault == SolverFault::from(TextFault::Size) {
        0
    } else {
        line
    }
}

fn fault_bytes(fault: SolverFault, line: u16) -> [u8; 7]
    ensures { result ≡ fault_frame fault line }
{
    let code = fault.code();
    let line = u16_bytes(line_of(fault, line));
    let place = u16_bytes(code.place);
    [
        0x1E,
        code.number,
        code.layer,
        line[0],
        line[1],
        place[0],
        place[1],
    ]
}

// Appends the fault's line, and answers whether it has room; where it has none, nothing is written.
pub fn put_fault(out: &mut Output, fault: SolverFault, line: u16) -> bool
    ensures room { result ≡ has_room (lines_in out.old) (fault_frame fault line) }
    ensures appends { Appends out.old out.new (fault_frame fault line ∷ []) }
{
    out.put_line(&fault_bytes(fault, line))
}
