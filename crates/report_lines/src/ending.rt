// The line that ends an answer: 1F, how the run ended, whether a region was handed out, and the steps.
ghost use Rattle.std.specs.Prelude.{◌≡◌, [], ◌∷◌};
ghost use Rattle.wire.specs.Appending.{lines_in, lines_size, Appends, WrittenWhole};
ghost use Rattle.report_lines.specs.EndFrame.{end_frame};

use search_theory::outcome::Outcome;
use wire::bytes::u32_bytes;
use wire::output::Output;

fn end_bytes(outcome: Outcome, found: bool, steps: u32) -> [u8; 7]
    ensures { result ≡ end_frame outcome found steps }
{
    let steps = u32_bytes(steps);
    [
        0x1F,
        u8::from(outcome),
        u8::from(found),
        steps[0],
        steps[1],
        steps[2],
        steps[3],
    ]
}

// Appends the end line. It has 15 bytes; where it has no room, nothing is written. The three are the line's fields, and
// callers take them from records of their own.
#[tactic(auto, using(wire::proofs::Adding::written_whole))]
pub fn put_end(out: &mut Output, outcome: Outcome, found: bool, steps: u32)
    ensures appends { Appends out.old out.new (end_frame outcome found steps ∷ []) }
    ensures whole { WrittenWhole (lines_in out.old) (end_frame outcome found steps ∷ []) (lines_in out.new) }
    ensures size { lines_size (end_frame outcome found steps ∷ []) ≡ 15 }
{
    out.put_line(&end_bytes(outcome, found, steps));
}
