// Bounds as cuts. Nodes are wider here, so that every setting has its two.
ghost use Rattle.std.specs.Prelude.{◌≡◌, pos, ◌+ℤ◌, ◌-ℤ◌, neg_ℤ, ◌≤ℤ◌};
ghost use Rattle.std.specs.Int.{int_max};
ghost use Rattle.rule_base.specs.Bounds.{bounded, cut_at};

use interface::cut::Cut;

// The exact difference: 64 bits hold it.
pub fn gap(x: i32, y: i32) -> i64
    ensures { result ≡ x -ℤ y }
{
    i64::from(x) - i64::from(y)
}

// The exact negative.
pub fn negative(x: i32) -> i64
    ensures { result ≡ neg_ℤ x }
{
    -i64::from(x)
}

// The cut (p, q, c), or none where there is no such cut.
#[tactic(auto, unfolding(crate::specs::Bounds::cut_at))]
pub fn cut_at(p: u16, q: u16, c: i64) -> Option<Cut>
    ensures { result ≡ cut_at p q c }
{
    // within these bounds each cast is exact
    if p < 16 && q < 16 && (-2_000_000..=2_000_000).contains(&c) {
        Cut::new(p as u8, q as u8, c as i32)
    } else {
        None
    }
}

// Twice the bound, clipped before it is doubled so that it cannot overflow.
fn doubled(b: i64) -> i64
    requires { b ≤ℤ pos 1000000 }
    ensures { result ≡ int_max (b +ℤ b) (neg_ℤ (pos 2000000)) }
{
    2 * b.max(-1_000_000)
}

// The cut that bounds the value at node p by b: none where twice b is above two million.
pub fn bounded_by(p: u16, b: i64) -> Option<Cut>
    ensures { result ≡ bounded p b }
{
    if b > 1_000_000 {
        return None;
    }
    cut_at(p, p, doubled(b))
}
