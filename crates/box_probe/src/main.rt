// Prints a digest of every answer of small interval boxes, a line for each home and pair of nodes. What it must print
// comes from tests/intervals/brute.py, which lists the points of each box instead.
#![tactic(auto)]

use digests::{Questions, all_answers, answers, place};
use interface::cut::Cut;
use interface::home::{Home, Span};
use interface::point::Point;
use interface::shape::Shape;
use intervals::interval_box::IntervalBox;
use std::{array, io};

// Small points, of as many settings as the box and of others.
fn small_points() -> [Point; 196] {
    array::from_fn(|i| {
        let a = place((i / 7 % 7) as u8);
        let b = place((i % 7) as u8);
        Point {
            n: (i / 49) as u8,
            values: [a, b, 0, 0, 0, 0, 0, 0],
        }
    })
}

// The answers of the box, of its parts, and of the box after one cut more.
fn and_after_a_cut(s: &IntervalBox, asked: &Questions, digest: u64) -> u64 {
    let digest = all_answers(s, asked, digest);
    let mut again = *s;
    if let Some(cut) = Cut::new(0, 0, 0) {
        again.cut(cut);
    }
    answers(&again, asked, digest)
}

// The digest of what the cuts at nodes p and q with bounds from -6 to 6 leave of a home.
fn probe(home: &Home, asked: &Questions, p: u8, q: u8) -> u64 {
    let mut digest = 0;
    for i in 0..13u8 {
        if let Some(cut) = Cut::new(p, q, i as i32 - 6) {
            let mut s = IntervalBox::start(home);
            s.cut(cut);
            digest = and_after_a_cut(&s, asked, digest);
        }
    }
    digest
}

fn home_of(n: u8, a: i32, b: i32, c: i32, d: i32) -> Home {
    let mut spans = [Span::default(); 8];
    spans[0] = Span { low: a, high: b };
    spans[1] = Span { low: c, high: d };
    spans[2] = Span { low: 7, high: 9 };
    Home { n, spans }
}

// A line for each pair of the home's nodes and one node more, which is not on the line.
fn report(rt: &HostRuntime, home: &Home, asked: &Questions, nodes: u8) -> io::Result<()> {
    let n = home.n;
    let [Span { low: a, high: b }, Span { low: c, high: d }, ..] = home.spans;
    for p in 0..nodes {
        for q in 0..nodes {
            let digest = probe(home, asked, p, q);
            println!(rt; "{n} {a} {b} {c} {d} {p} {q} {digest}")?;
        }
    }
    Ok(())
}

fn main(rt: HostRuntime) -> io::Result<()> {
    let points = small_points();
    let asked = Questions {
        nodes: 6,
        settings: 9,
        points: &points,
    };
    for a in 0..4u8 {
        for b in a..4u8 {
            report(&rt, &home_of(1, place(a), place(b), 5, 4), &asked, 3)?;
        }
    }
    for a in 0..3u8 {
        for b in a..3u8 {
            for c in 0..3u8 {
                for d in c..3u8 {
                    let home = home_of(2, place(a + 2), place(b + 2), place(c + 2), place(d + 2));
                    report(&rt, &home, &asked, 5)?;
                }
            }
        }
    }
    Ok(())
}
