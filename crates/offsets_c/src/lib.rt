// The entry point as C calls it: the library's, with its clauses. A crate of its own, since an export stands in a static
// library, and Rattle code calls a library.
#![tactic(auto)]

ghost use Rattle.std.specs.Prelude.{◌≡◌, ◌≤◌, length};
ghost use Rattle.octagon.specs.Octagons.{octagon_model};
ghost use Rattle.offsets.specs.Truth.{entry_count, entry_output, TellsTruly};

use offsets::entry;

// Solves the problem that a text states with at most so many steps, and writes the lines that answer it from the
// output's front on; 0 and nothing written where the output has fewer than 1,897 bytes.
#[unsafe(no_mangle)]
pub extern "C" fn offsets_solve(input: &[u8], budget: u32, output: &mut [u8]) -> usize
    ensures count { result ≡ entry_count octagon_model input.now budget (length output.old) }
    ensures writes { output.new ≡ entry_output octagon_model input.now budget output.old }
    ensures bound { result ≤ length output.old }
    ensures truth { TellsTruly octagon_model input.now budget (length output.old) }
{
    entry::offsets_solve(input, budget, output)
}
