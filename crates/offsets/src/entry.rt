// The entry point: bytes and numbers in, bytes and their count out. C calls it through the static library offsets_c.
ghost use Rattle.std.specs.Prelude.{◌≡◌, ◌≤◌, length, Ok};
ghost use Rattle.octagon.specs.Octagons.{octagon_model};
ghost use Rattle.offsets.specs.Entry.{entry_frames, problem_frames, room_in};
ghost use Rattle.offsets.specs.Truth.{entry_count, entry_output, TellsTruly};
ghost use Rattle.problem.specs.Problems.{stated_by};
ghost use Rattle.wire.specs.Appending.{Appends, lines, lines_in, put_frames};

use super::memory::solve_opened;
use problem::problem::{Problem, read_problem};
use report_lines::refusal::put_refusal;
use session::call::open;
use wire::output::Output;

fn solve_problem(problem: &Problem, budget: u32, output: &mut Output)
    ensures { Appends output.old output.new (problem_frames octagon_model (Ok (stated_by problem.now)) budget (room_in (length (lines_in output.old).output))) }
{
    match open(&problem.home) {
        Ok(mut solver) => solve_opened(&mut solver, problem, budget, output),
        Err(fault) => put_refusal(output, fault, 1),
    }
}

fn put_lines(input: &[u8], budget: u32, output: &mut Output)
    ensures { Appends output.old output.new (entry_frames octagon_model input.now budget (length (lines_in output.old).output)) }
{
    match read_problem(input) {
        Ok(problem) => solve_problem(&problem, budget, output),
        Err(refusal) => put_refusal(output, refusal.fault, refusal.line),
    }
}

fn answer_into(input: &[u8], budget: u32, output: &mut [u8]) -> usize
    ensures { lines output.new result ≡ put_frames (lines output.old 0) (entry_frames octagon_model input.now budget (length output.old)) }
{
    let mut lines = Output::new(output);
    put_lines(input, budget, &mut lines);
    lines.place()
}

// Solves the problem that a text states with at most so many steps, and writes the lines that answer it from the
// output's front on; 0 and nothing written where the output has fewer than 1,897 bytes.
pub fn offsets_solve(input: &[u8], budget: u32, output: &mut [u8]) -> usize
    ensures count { result ≡ entry_count octagon_model input.now budget (length output.old) }
    ensures writes { output.new ≡ entry_output octagon_model input.now budget output.old }
    ensures bound { result ≤ length output.old }
    ensures truth { TellsTruly octagon_model input.now budget (length output.old) }
{
    if output.len() < 1897 {
        return 0;
    }
    answer_into(input, budget, output)
}
