// What one cut makes of the limits: the shortest of five ways, then joined halves. Rows are contiguous and the inner loop
// has no branch, so that a compiler can take several entries at once.
ghost use Rattle.std.specs.Prelude.{◌≡◌, ◌*◌, ◌<◌, min};
ghost use Rattle.interface.specs.Numbers.{half};
ghost use Rattle.octagon.specs.Entries.{plus, at, listed, way, lowered};
ghost use Rattle.octagon.specs.Crossings.{crossing, shortest_by, half_by, joined_by};

use std::array;

// That a node is below 16 many functions here ask: it is read off a loop over the nodes or passed on, and a type for it
// would be made and taken apart at each index.

// The sum, which wraps past 32 bits: no octagon that is made comes near them.
pub(crate) fn sum(a: i32, b: i32) -> i32
    ensures { result ≡ plus a b }
{
    a.wrapping_add(b)
}

// Half, rounded down.
pub(crate) fn half_of(a: i32) -> i32
    ensures { result ≡ half a }
{
    a >> 1
}

// How many nodes the line has.
pub(crate) fn nodes(n: u8) -> usize
    ensures { result ≡ min 16 (2 * n) }
{
    (2 * n as usize).min(16)
}

// The entries of row p.
fn row(limits: &[i32; 256], p: usize) -> [i32; 16]
    requires { p < 16 }
    ensures { result ≡ listed (at limits.now p) 16 }
{
    array::from_fn(|q| limits[16 * p + q])
}

// The shorter way from i over the cut that ends at b: by a, or by b and once more over the cut. The limits, a, b and c are
// what a `Crossing` is made of; of its methods only `half` and `halves` read the limits again, for the entries (i, i).
fn way(limits: &[i32; 256], a: usize, b: usize, c: i32, i: usize) -> i32
    requires { (a < 16) × (b < 16) × (i < 16) }
    ensures { result ≡ way limits.now a b c i }
{
    let once = sum(limits[16 * a + i], c);
    let again = sum(sum(limits[16 * b + i], c), sum(limits[16 * a + a], c));
    once.min(again)
}

fn ways(limits: &[i32; 256], a: usize, b: usize, c: i32) -> [i32; 16]
    requires { (a < 16) × (b < 16) }
    ensures { result ≡ listed (way limits.now a b c) 16 }
{
    array::from_fn(|i| way(limits, a, b, c, i))
}

// The ways over a cut to c between the opposites of a and b, as the limits stand before it. The limits are symmetric, so
// that their rows serve as columns.
#[derive(Clone, Copy)]
struct Crossing {
    // rows a and b, which are overwritten later
    to_a: [i32; 16],
    to_b: [i32; 16],
    // from each node the shorter way over the cut that ends at a, and at b
    by_a: [i32; 16],
    by_b: [i32; 16],
}

impl Crossing {
    fn new(limits: &[i32; 256], a: usize, b: usize, c: i32) -> Crossing
        requires { (a < 16) × (b < 16) }
        ensures { result ≡ crossing limits.now a b c }
    {
        Crossing {
            to_a: row(limits, a),
            to_b: row(limits, b),
            by_a: ways(limits, b, a, c),
            by_b: ways(limits, a, b, c),
        }
    }

    // The shortest way from i to j, past the cut, which is the entry (i, j), or over it.
    fn shortest(&self, entry: i32, i: usize, j: usize) -> i32
        requires { (i < 16) × (j < 16) }
        ensures { result ≡ shortest_by self.now entry i j }
    {
        let over = sum(self.by_b[i], self.to_b[j]).min(sum(self.by_a[i], self.to_a[j]));
        entry.min(over)
    }

    // Half the way from i to itself, rounded down.
    fn half(&self, limits: &[i32; 256], i: usize) -> i32
        requires { i < 16 }
        ensures { result ≡ half_by self.now limits.now i }
    {
        half_of(self.shortest(limits[16 * i + i], i, i))
    }

    fn halves(&self, limits: &[i32; 256]) -> [i32; 16]
        ensures { result ≡ listed (half_by self.now limits.now) 16 }
    {
        array::from_fn(|i| self.half(limits, i))
    }

    // The entry (i, j) that the cut leaves: the shortest way, and at most the sum of the two halves.
    fn joined(&self, entry: i32, halves: &[i32; 16], i: usize, j: usize) -> i32
        requires { (i < 16) × (j < 16) }
        ensures { result ≡ joined_by self.now halves.now i j entry }
    {
        self.shortest(entry, i, j).min(sum(halves[i], halves[j]))
    }
}

// Takes in a cut to c between the opposites of a and b.
pub(crate) fn lower(limits: &mut [i32; 256], n: u8, a: usize, b: usize, c: i32)
    requires { (a < 16) × (b < 16) }
    ensures { limits.new ≡ lowered n limits.old a b c }
{
    let cut = Crossing::new(limits, a, b, c);
    let halves = cut.halves(limits);
    let w = nodes(n);
    // by index: with chunks_exact_mut and enumerate the proof that each row is lowered did not close, since after the loop
    // it knows no element of a lent row; array::from_fn over the matrix took 5,035 instructions a cut, the loops 1,063
    for i in 0..w {
        for j in 0..w {
            limits[16 * i + j] = cut.joined(limits[16 * i + j], &halves, i, j);
        }
    }
}
