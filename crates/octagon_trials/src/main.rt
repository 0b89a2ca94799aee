// Random homes and cuts, and what the octagon answers to each; with input, cuts alone, a thousand for each byte, for counting instructions.
#![tactic(auto)]

ghost use Rattle.std.specs.Prelude.{◌≡◌, ◌+◌, ◌<◌, ◌≤◌};

use interface::cut::Cut;
use interface::home::{Home, Span};
use interface::shape::Shape;
use octagon::matrix::Octagon;
use std::io;
use std::io::Read;

// A number below `below` from the next state of the generator.
fn draw(seed: &mut u64, below: u32) -> u32
    requires { 0 < below }
    ensures { result < below }
{
    *seed = seed
        .wrapping_mul(6364136223846793005)
        .wrapping_add(1442695040888963407);
    (*seed >> 33) as u32 % below
}

fn draw_home(seed: &mut u64) -> Home {
    let mut home = Home {
        n: 1 + draw(seed, 3) as u8,
        spans: [Span::default(); 8],
    };
    for span in home.spans.iter_mut().take(3) {
        let low = draw(seed, 9) as i32 - 4;
        *span = Span {
            low,
            high: low + draw(seed, 5) as i32,
        };
    }
    home
}

// A cut between nodes of a line, or none where the nodes are opposite.
fn draw_cut(seed: &mut u64, n: u8, size: u32) -> Option<Cut>
    requires some_node { 0 < n }
    requires on_line { n ≤ 8 }
    requires small { size ≤ 1000000 }
{
    let p = draw(seed, 2 * n as u32) as u8;
    let q = draw(seed, 2 * n as u32) as u8;
    let c = draw(seed, 2 * size + 1) as i32 - size as i32;
    Cut::new(p, q, c)
}

fn show(rt: &HostRuntime, o: &Octagon) -> io::Result<()> {
    let extent = u8::from(o.extent());
    let halvings = o.halvings();
    print!(rt; "{extent} {halvings}")?;
    for p in 0..6u8 {
        for q in 0..6u8 {
            let limit = o.limit(p, q);
            print!(rt; " {limit}")?;
        }
    }
    if let Some(x) = o.offer() {
        for v in x.values.iter().take(3) {
            print!(rt; " {v}")?;
        }
    }
    println!(rt; "")
}

fn trial(rt: &HostRuntime, seed: &mut u64) -> io::Result<()> {
    let home = draw_home(seed);
    let mut o = Octagon::start(&home);
    let count = draw(seed, 6);
    for _ in 0..count {
        if let Some(t) = draw_cut(seed, 3, 9) {
            o.cut(t);
        }
    }
    show(rt, &o)?;
    let (lower, upper) = o.split();
    show(rt, &lower)?;
    show(rt, &upper)
}

// Ten cuts of eight settings, on a fresh octagon.
fn ten(seed: &mut u64, fresh: &Octagon) -> Octagon {
    let mut o = *fresh;
    for _ in 0..10u32 {
        if let Some(t) = draw_cut(seed, 8, 1000) {
            o.cut(t);
        }
    }
    o
}

fn main(rt: HostRuntime) -> io::Result<()> {
    let mut seed = 1u64;
    let mut text = Vec::new(rt.alloc());
    rt.stdin().read_to_end(&mut text)?;
    if text.is_empty() {
        for _ in 0..200u32 {
            trial(&rt, &mut seed)?;
        }
        return Ok(());
    }
    let home = Home {
        n: 8,
        spans: [Span {
            low: -1000,
            high: 1000,
        }; 8],
    };
    let fresh = Octagon::start(&home);
    let mut o = fresh;
    for _ in 0..text.len() {
        for _ in 0..100u32 {
            o = ten(&mut seed, &fresh);
        }
    }
    show(&rt, &o)
}
