// The slices that a caller lends to a call.
ghost use Rattle.std.specs.Prelude.{◌≡◌, [], ◌∷◌, length, nat_lt};
ghost use Rattle.interface.specs.Grounds.{first_fault};
ghost use Rattle.interface.specs.declared.fault.SolverFault.TheVariants.{Short};

use interface::fault::SolverFault;
use interface::guard::refuse;
use search_theory::checkpoint::Checkpoint;
use search_theory::region::Region;

// What a caller lends to a call: places for rules, checkpoints and waiting regions, and the list that a run fills.
#[derive(Drop)]
pub struct Lent<'a, S, R> {
    pub rules: &'a mut [R],
    pub checkpoints: &'a mut [Checkpoint<S>],
    pub stack: &'a mut [S],
    pub out: &'a mut [Region<S>],
}

// Refused where a lent slice is shorter than what it holds.
pub(crate) fn long_enough<T>(slice: &[T], held: usize) -> Result<(), SolverFault>
    ensures { result ≡ first_fault ((nat_lt (length slice.now) held, Short) ∷ []) }
{
    refuse(slice.len() < held, SolverFault::Short)
}
