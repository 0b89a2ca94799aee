// A search with the interval box in portions, on stack slices and lists of several sizes: each outcome, and what was handed out.
#![tactic(auto)]

use interface::home::{Home, Span};
use interface::point::Point;
use interface::shape::Shape;
use intervals::interval_box::IntervalBox;
use rules::any::AnyRule;
use rules::apart::ApartRule;
use rules::step::StepRule;
use search::solver::Solver;
use search_theory::region::Region;
use search_theory::report::Report;
use std::io;
use sum_rule::sum::{SumRule, Term};

fn home() -> Home {
    let mut spans = [Span::default(); 8];
    spans[0].high = 9;
    spans[1].high = 7;
    Home { n: 2, spans }
}

// The settings lie at least 3 apart, the first leaves 1 divided by 2, and 3 s0 - 2 s1 is at most 12.
fn rules() -> [AnyRule; 3] {
    let apart = ApartRule { a: 0, b: 1, d: 3 };
    let step = StepRule { a: 0, m: 2, r: 1 };
    let sum = SumRule {
        first: Term {
            setting: 0,
            coefficient: 3,
        },
        second: Term {
            setting: 1,
            coefficient: -2,
        },
        third: Term {
            setting: 0,
            coefficient: 0,
        },
        t: 12,
    };
    [
        AnyRule::from(apart),
        AnyRule::from(step),
        AnyRule::from(sum),
    ]
}

fn print_region(rt: &HostRuntime, region: &Region<IntervalBox>) -> io::Result<()> {
    let (low, high) = region.shape.range(0);
    let (low_1, high_1) = region.shape.range(1);
    let [a, b, ..] = region.point.values;
    println!(rt; "  {low} to {high}, {low_1} to {high_1}; point {a} {b}")
}

fn print_run(rt: &HostRuntime, report: Report, out: &[Region<IntervalBox>]) -> io::Result<()> {
    let outcome = u8::from(report.outcome);
    let steps = report.steps;
    let found = report.found;
    println!(rt; "outcome {outcome} after {steps} steps, found {found}")?;
    for region in out.iter().take(report.count) {
        print_region(rt, region)?;
    }
    Ok(())
}

fn state_rules(solver: &mut Solver<IntervalBox>, stated: &mut [AnyRule]) {
    for rule in rules() {
        let _ = solver.state(stated, rule);
    }
}

// Five runs of the budget each.
fn run_five(
    rt: &HostRuntime,
    solver: &mut Solver<IntervalBox>,
    stated: &[AnyRule],
    stack: &mut [IntervalBox],
    out: &mut [Region<IntervalBox>],
    budget: u32,
) -> io::Result<()> {
    let _ = solver.begin(stack);
    for _ in 0..5 {
        if let Ok(report) = solver.run(stated, stack, out, budget) {
            print_run(rt, report, out)?;
        }
    }
    Ok(())
}

// A search on so many places of a stack and of a list.
fn search(rt: &HostRuntime, places: usize, list: usize, budget: u32) -> io::Result<()> {
    println!(rt; "stack {places}, list {list}, budget {budget}")?;
    let shape = IntervalBox::start(&home());
    let point = Point {
        n: 0,
        values: [0; 8],
    };
    let mut stated = rules();
    let mut stack = [shape; 12];
    let mut regions = [Region { shape, point }; 12];
    let (Some(stack), Some(out)) = (stack.get_mut(..places), regions.get_mut(..list)) else {
        return Ok(());
    };
    let Ok(mut solver) = Solver::<IntervalBox>::open(&home()) else {
        return Ok(());
    };
    state_rules(&mut solver, &mut stated);
    run_five(rt, &mut solver, &stated, stack, out, budget)
}

fn main(rt: HostRuntime) -> io::Result<()> {
    search(&rt, 12, 12, 1000)?;
    search(&rt, 12, 3, 1000)?;
    search(&rt, 12, 12, 4)?;
    search(&rt, 2, 12, 1000)?;
    search(&rt, 1, 12, 1000)?;
    search(&rt, 8, 1, 7)
}
