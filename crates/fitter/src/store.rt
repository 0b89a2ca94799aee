// The places that a session is lent.
use octagon::matrix::Octagon;
use rules::any::AnyRule;
use search_theory::checkpoint::Checkpoint;
use search_theory::region::Region;

// 32 rules, 4 checkpoints, 169 regions that wait, and a list of 4 regions a run.
#[derive(Clone, Copy)]
pub struct Memory {
    pub rules: [AnyRule; 32],
    pub checkpoints: [Checkpoint<Octagon>; 4],
    pub stack: [Octagon; 169],
    pub regions: [Region<Octagon>; 4],
}
