// What was done, in plain words.
ghost use Rattle.std.specs.Prelude.{◌≡◌};
ghost use Rattle.fitter.specs.Desks.{none_exists};

use super::counts::Counts;
use super::desk::Desk;
use super::grounds::ground;
use interface::fault::SolverFault;
use interface::shape::Shape;
use octagon::matrix::Octagon;
use rules::any::AnyRule;
use search_theory::outcome::Outcome;
use search_theory::region::Region;
use search_theory::reply::Reply;
use search_theory::report::Report;
use search_theory::request::Request;
use std::io;

// What a word ends in after a count.
fn plural(count: u32) -> &'static str {
    if count == 1 { "" } else { "s" }
}

fn tell_refusal(rt: &HostRuntime, fault: SolverFault) -> io::Result<()> {
    let words = ground(fault);
    let number = fault.code().number;
    println!(rt; "refused: {words} ({number})")
}

pub(crate) fn tell_home(
    rt: &HostRuntime,
    n: u8,
    answer: Result<(), SolverFault>,
) -> io::Result<()> {
    match answer {
        Ok(()) => {
            let end = plural(n as u32);
            println!(rt; "home: {n} setting{end}")
        }
        Err(fault) => tell_refusal(rt, fault),
    }
}

// The range of each setting, then the point.
fn tell_region(rt: &HostRuntime, region: &Region<Octagon>) -> io::Result<()> {
    let n = region.shape.n();
    print!(rt; "region:")?;
    for k in 0..n {
        let (low, high) = region.shape.range(k);
        let before = if k == 0 { " " } else { ", " };
        print!(rt; "{before}s{k} from {low} to {high}")?;
    }
    print!(rt; "; point")?;
    for k in 0..n {
        let value = region.point.setting(k);
        print!(rt; " {value}")?;
    }
    println!(rt; "")
}

// In the fitter's words, and no Display of the enum: the library speaks in numbers.
fn outcome_words(outcome: Outcome) -> &'static str {
    match outcome {
        Outcome::Done => "done",
        Outcome::Spent => "spent",
        Outcome::ListFull => "list full",
        Outcome::StackFull => "stack full",
    }
}

// Whether the search is over and handed out nothing.
fn no_setting(report: &Report) -> bool
    ensures { result ≡ none_exists report.now }
{
    report.outcome == Outcome::Done && !report.found
}

fn tell_run(rt: &HostRuntime, report: Report, regions: &[Region<Octagon>]) -> io::Result<()> {
    for region in regions.iter().take(report.count) {
        tell_region(rt, region)?;
    }
    let words = outcome_words(report.outcome);
    let steps = report.steps;
    let end = plural(steps);
    println!(rt; "{words} after {steps} step{end}")?;
    if no_setting(&report) {
        println!(rt; "no setting exists")?;
    }
    Ok(())
}

fn tell_accepted(rt: &HostRuntime, counts: Counts, request: Request<AnyRule>) -> io::Result<()> {
    let rules = counts.rules;
    let marks = counts.marks;
    match request {
        Request::State(_) => println!(rt; "rule {rules} stands"),
        Request::Mark => println!(rt; "checkpoint {marks} set, rules standing: {rules}"),
        Request::Back => println!(rt; "taken back, rules standing: {rules}, checkpoints: {marks}"),
        Request::Keep => println!(rt; "kept, rules standing: {rules}, checkpoints: {marks}"),
        Request::Begin => println!(rt; "search begun"),
        Request::Leave => println!(rt; "search left"),
        // a run and a limit answer more than that
        Request::Run(_) | Request::Limit(_, _) => Ok(()),
    }
}

pub(crate) fn tell_reply(
    rt: &HostRuntime,
    desk: &Desk,
    request: Request<AnyRule>,
    answer: Result<Reply, SolverFault>,
) -> io::Result<()> {
    match answer {
        Err(fault) => tell_refusal(rt, fault),
        Ok(Reply::LimitIs(limit)) => println!(rt; "limit: {limit}"),
        Ok(Reply::Ran(report)) => tell_run(rt, report, &desk.memory.regions),
        Ok(Reply::Accepted) => tell_accepted(rt, desk.counts, request),
    }
}
