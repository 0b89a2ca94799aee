// A cut (p, q, c) keeps the points with v(p) + v(q) at most c.
ghost use Rattle.std.specs.Prelude.{◌≡◌, true};
ghost use Rattle.interface.specs.CutBounds.{valid_cut};

mod make;

// Nodes up to 15 that are not opposite, c at most two million away from 0: no other cut exists.
#[derive(Clone, Copy)]
pub struct Cut {
    p: u8,
    q: u8,
    c: i32,
    ghost ok: { valid_cut p q c ≡ true },
}
