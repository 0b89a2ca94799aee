// Nodes: node 2k stands for setting k, node 2k + 1 for its negative.
ghost use Rattle.std.specs.Prelude.{◌≡◌, ◌<◌};
ghost use Rattle.interface.specs.Nodes.{opp};

// The node that stands for the negative.
pub fn opposite(p: u8) -> u8
    ensures { result ≡ opp p }
{
    if p % 2 == 0 { p + 1 } else { p - 1 }
}
