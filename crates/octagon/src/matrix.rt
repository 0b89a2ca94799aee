// The octagon: a matrix of limits, made from a home and cut.
ghost use Rattle.std.specs.Prelude.{◌≡◌, ◌<◌};
ghost use Rattle.octagon.specs.Entries.{tabled, top, home_limit};
ghost use Rattle.octagon.specs.Octagons.{started, limit_at, idle, unmet, cut_to};

use super::lowering::{lower, nodes, sum};
use interface::home::Home;
use interface::node::opposite;
use std::array;

// The limit (p, q) stands at 16 p + q: 0 where a node is 2n or above, for opposite nodes, and on a void octagon.
// `void` stands beside them, and they are no Option: a void octagon answers 0 for each limit, as any octagon off its line.
// `n` stands beside an array: octagons are copied into lent slices, and an ArrayVec is not Copy.
#[derive(Clone, Copy)]
pub struct Octagon {
    pub(crate) n: u8,
    pub(crate) void: bool,
    pub(crate) limits: [i32; 256],
}

// The greatest v(p) at home. That p is below 16 is asked as in lowering: a type for it would be taken apart at each index.
#[tactic(auto, using(std::proofs::lemmas::Int::wraps))]
fn top_at(home: &Home, p: u8) -> i32
    requires { p < 16 }
    ensures { result ≡ top home.now p }
{
    let span = home.spans[p as usize / 2];
    if p % 2 == 0 {
        span.high
    } else {
        span.low.wrapping_neg()
    }
}

fn home_limit_at(home: &Home, p: u8, q: u8) -> i32
    requires { (p < 16) × (q < 16) }
    ensures { result ≡ home_limit home.now p q }
{
    if home.n <= p / 2 || home.n <= q / 2 || q == opposite(p) {
        0
    } else {
        sum(top_at(home, p), top_at(home, q))
    }
}

// The matrix of a home is tightly closed as it stands.
fn home_limits(home: &Home) -> [i32; 256]
    ensures { result ≡ tabled (home_limit home.now) }
{
    array::from_fn(|k| home_limit_at(home, (k / 16) as u8, (k % 16) as u8))
}

impl Octagon {
    pub(crate) fn from_home(home: &Home) -> Octagon
        ensures { result ≡ started home.now }
    {
        Octagon {
            n: home.n,
            void: false,
            limits: home_limits(home),
        }
    }

    // As a reading's limit, on the octagon's own array: to make a reading first would copy all of it.
    pub(crate) fn limit_of(&self, p: u8, q: u8) -> i32
        ensures { result ≡ limit_at self.now p q }
    {
        if p < 16 && q < 16 {
            self.limits[16 * p as usize + q as usize]
        } else {
            0
        }
    }

    // Whether the cut takes nothing away. This, `is_unmet`, `cut_by` and `with_cut` take p, q and c and not a `Cut`: a part's
    // cut is made of a setting and a bound, and `Cut::new` would answer an Option.
    fn is_idle(&self, p: u8, q: u8, c: i32) -> bool
        ensures { result ≡ idle self.now p q c }
    {
        self.void
            || nodes(self.n) <= p as usize
            || nodes(self.n) <= q as usize
            || self.limit_of(p, q) <= c
    }

    // Whether no point meets the cut.
    fn is_unmet(&self, p: u8, q: u8, c: i32) -> bool
        requires { (p < 255) × (q < 255) }
        ensures { result ≡ unmet self.now p q c }
    {
        sum(c, self.limit_of(opposite(p), opposite(q))) < 0
    }

    // Takes the cut (p, q, c).
    #[tactic(auto, unfolding(crate::specs::Octagons::cut_to))]
    pub(crate) fn cut_by(&mut self, p: u8, q: u8, c: i32)
        ensures { self.new ≡ cut_to self.old p q c }
    {
        if self.is_idle(p, q, c) {
            return;
        }
        if self.is_unmet(p, q, c) {
            self.void = true;
            self.limits = [0; 256];
            return;
        }
        let n = self.n;
        lower(
            &mut self.limits,
            n,
            opposite(p) as usize,
            opposite(q) as usize,
            c,
        );
    }
}
