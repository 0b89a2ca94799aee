// Making a cut and reading its parts.
ghost use Rattle.std.specs.Prelude.{◌≡◌};
ghost use Rattle.interface.specs.CutBounds.{valid_cut};
ghost use Rattle.interface.specs.Cuts.{cut_of};

use super::super::node::opposite;
use super::Cut;

// Whether there is a cut of these numbers.
fn is_cut(p: u8, q: u8, c: i32) -> bool
    ensures { result ≡ valid_cut p q c }
{
    p < 16 && q < 16 && q != opposite(p) && (-2_000_000..=2_000_000).contains(&c)
}

impl Cut {
    // The cut (p, q, c), or none where there is no such cut.
    pub fn new(p: u8, q: u8, c: i32) -> Option<Cut>
        ensures { result ≡ cut_of p q c }
    {
        if is_cut(p, q, c) {
            Some(Cut { p, q, c })
        } else {
            None
        }
    }

    pub fn first(&self) -> u8
        ensures { result ≡ self.now.p }
    {
        self.p
    }

    pub fn second(&self) -> u8
        ensures { result ≡ self.now.q }
    {
        self.q
    }

    pub fn bound(&self) -> i32
        ensures { result ≡ self.now.c }
    {
        self.c
    }
}
