// The one line that answers a text which was refused.
ghost use Rattle.std.specs.Prelude.{◌≡◌, [], ◌∷◌};
ghost use Rattle.wire.specs.Appending.{lines_in, lines_size, Appends, WrittenWhole};
ghost use Rattle.wire.specs.FaultLine.{fault_frame};

use interface::fault::SolverFault;
use wire::fault_line::put_fault;
use wire::output::Output;

// Appends the fault's line. It has 15 bytes; where it has no room, nothing is written. The two are the line's fields,
// and callers take them from records of their own.
#[tactic(auto, using(wire::proofs::Adding::written_whole))]
pub fn put_refusal(out: &mut Output, fault: SolverFault, line: u16)
    ensures appends { Appends out.old out.new (fault_frame fault line ∷ []) }
    ensures whole { WrittenWhole (lines_in out.old) (fault_frame fault line ∷ []) (lines_in out.new) }
    ensures size { lines_size (fault_frame fault line ∷ []) ≡ 15 }
{
    put_fault(out, fault, line);
}
