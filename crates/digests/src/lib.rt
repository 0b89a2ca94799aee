// The digest of a shape's answers: one number that mixes them all, in order, so that a program's short output can be held
// to one that lists points instead.
#![tactic(auto)]

ghost use Rattle.std.specs.Prelude.{◌≡◌, pos, ◌-ℤ◌, map};
ghost use Rattle.std.specs.List.{range_with_len};
ghost use Rattle.digests.specs.Digests.{mixed, mixed_all};
ghost use Rattle.digests.specs.AnswerLists.{limit_numbers, range_numbers, held_numbers, offer_numbers, answer_numbers, part_numbers};

use interface::point::Point;
use interface::shape::Shape;

// What a shape is asked: the limit of each two nodes below `nodes`, the range of each setting below `settings`, and
// whether it holds each of the points.
#[derive(Clone, Copy)]
pub struct Questions<'a> {
    pub nodes: u8,
    pub settings: u8,
    pub points: &'a [Point],
}

// A small number for each i, from -3 on.
pub fn place(i: u8) -> i32
    ensures { result ≡ pos i -ℤ pos 3 }
{
    i32::from(i) - 3
}

// The digest with one more number.
fn mixed(digest: u64, x: i32) -> u64
    ensures { result ≡ mixed digest x }
{
    (digest % 1_000_003 * 31 + (i64::from(x) + 3_000_000_000) as u64) % 1_000_003
}

// Whether each point is held.
fn held<S: Shape>(s: &S, points: &[Point], digest: u64) -> u64
    ensures { result ≡ mixed_all digest (held_numbers S.model s.now points.now) }
{
    points
        .iter()
        .map(|point| i32::from(s.holds(point)))
        .fold(digest, mixed)
}

// The point that the shape offers, or -1.
fn offered<S: Shape>(s: &S, digest: u64) -> u64
    ensures { result ≡ mixed_all digest (offer_numbers (S.model.offer s.now)) }
{
    match s.offer() {
        None => mixed(digest, -1),
        Some(point) => point
            .values
            .iter()
            .copied()
            .fold(mixed(digest, i32::from(point.n)), mixed),
    }
}

// The limits of one node with each other.
fn row<S: Shape>(s: &S, p: u8, nodes: u8, digest: u64) -> u64
    ensures { result ≡ mixed_all digest (map (λ q. S.model.limit s.now p q) (range_with_len 0 nodes)) }
{
    (0..nodes).map(|q| s.limit(p, q)).fold(digest, mixed)
}

// The limit of each two nodes.
fn limits<S: Shape>(s: &S, nodes: u8, digest: u64) -> u64
    ensures { result ≡ mixed_all digest (limit_numbers S.model s.now nodes) }
{
    (0..nodes).fold(digest, |digest, p| row(s, p, nodes, digest))
}

// The low and the high of each setting.
fn ranges<S: Shape>(s: &S, settings: u8, digest: u64) -> u64
    ensures { result ≡ mixed_all digest (range_numbers S.model s.now settings) }
{
    (0..settings).fold(digest, |digest, k| {
        let (low, high) = s.range(k);
        mixed(mixed(digest, low), high)
    })
}

// Every answer but the parts.
pub fn answers<S: Shape>(s: &S, asked: &Questions, digest: u64) -> u64
    ensures { result ≡ mixed_all digest (answer_numbers S.model asked.now s.now) }
{
    let digest = mixed(digest, i32::from(s.n()));
    let digest = mixed(digest, i32::from(u8::from(s.extent())));
    let digest = mixed(digest, (s.halvings() % 1000) as i32);
    let digest = limits(s, asked.nodes, digest);
    let digest = ranges(s, asked.settings, digest);
    offered(s, held(s, asked.points, digest))
}

// The answers of the shape and of its parts.
pub fn all_answers<S: Shape>(s: &S, asked: &Questions, digest: u64) -> u64
    ensures { result ≡ mixed_all digest (part_numbers S.model asked.now s.now) }
{
    let (lower, upper) = s.split();
    let digest = answers(s, asked, digest);
    answers(&upper, asked, answers(&lower, asked, digest))
}
