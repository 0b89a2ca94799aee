// Prints digests of every answer of small octagons whose settings are tied to one another by odd numbers, so that rounding
// decides limits and voidness. What it must print comes from tests/octagon/brute.py, which lists the points instead.
#![tactic(auto)]

use digests::{Questions, all_answers, place};
use interface::cut::Cut;
use interface::home::{Home, Span};
use interface::node::opposite;
use interface::point::Point;
use interface::shape::Shape;
use octagon::matrix::Octagon;
use std::{array, io};

// Small points, of as many settings as the octagon and of others; of three settings, where box_probe takes two.
fn small_points() -> [Point; 648] {
    array::from_fn(|i| {
        let a = place((i / 36 % 6) as u8);
        let b = place((i / 6 % 6) as u8);
        let c = place((i % 6) as u8);
        Point {
            n: (1 + i / 216) as u8,
            values: [a, b, c, 0, 0, 0, 0, 0],
        }
    })
}

fn take(s: &mut Octagon, p: u8, q: u8, c: i32) {
    if let Some(cut) = Cut::new(p, q, c) {
        s.cut(cut);
    }
}

// Keeps v(p) + v(q) at most c, and its negative at most d.
fn tie(s: &mut Octagon, p: u8, q: u8, c: i32, d: i32) {
    take(s, p, q, c);
    take(s, opposite(p), opposite(q), d);
}

// Setting 0 is a more than setting 1, setting 1 is b or b - 1 more than setting 2, and the first and last add up to at most
// c and at least each number from -3 to 3 in turn; what is tied to a setting that is not there stays free.
fn probe(home: &Home, asked: &Questions, last: u8, a: u8, b: u8, c: u8) -> u64 {
    let mut digest = 0;
    for d in 0..7u8 {
        let mut s = Octagon::start(home);
        tie(&mut s, 0, 3, a as i32 - 1, 1 - a as i32);
        tie(&mut s, 2, 5, b as i32 - 1, 2 - b as i32);
        tie(&mut s, 0, last, place(c), place(d));
        digest = all_answers(&s, asked, digest);
    }
    digest
}

fn report(rt: &HostRuntime, home: &Home, asked: &Questions, last: u8) -> io::Result<()> {
    let n = home.n;
    for a in 0..3u8 {
        for b in 0..3u8 {
            for c in 0..7u8 {
                let digest = probe(home, asked, last, a, b, c);
                println!(rt; "{n} {a} {b} {c} {digest}")?;
            }
        }
    }
    Ok(())
}

fn main(rt: HostRuntime) -> io::Result<()> {
    let points = small_points();
    let asked = Questions {
        nodes: 8,
        settings: 4,
        points: &points,
    };
    let mut spans = [Span::default(); 8];
    spans[0] = Span { low: -2, high: 2 };
    spans[1] = Span { low: -3, high: 2 };
    spans[2] = Span { low: -2, high: 3 };
    spans[3] = Span { low: 7, high: 9 };
    for k in 0..3u8 {
        let home = Home { n: k + 1, spans };
        report(&rt, &home, &asked, 2 * k)?;
    }
    Ok(())
}
