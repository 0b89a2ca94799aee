// The lines of the regions that were handed out, and of the end.
ghost use Rattle.std.specs.Prelude.{◌≡◌, take};
ghost use Rattle.std.specs.List.{flat_map};
ghost use Rattle.octagon.specs.Octagons.{octagon_model};
ghost use Rattle.offsets.specs.Entry.{frames_of, report_frames, answer_frames};
ghost use Rattle.wire.specs.Appending.{Appends};

use interface::fault::SolverFault;
use interface::shape::Shape;
use octagon::matrix::Octagon;
use problem::front::front;
use report_lines::ending::put_end;
use report_lines::refusal::put_refusal;
use report_lines::region::put_region;
use search_theory::region::Region;
use search_theory::reply::Reply;
use search_theory::report::Report;
use wire::output::Output;

fn put_one(region: &Region<Octagon>, output: &mut Output)
    ensures { Appends output.old output.new (frames_of octagon_model region.now) }
{
    let reading = region.shape.reading();
    put_region(output, &reading, &region.point);
}

fn put_all(regions: &[Region<Octagon>], output: &mut Output)
    ensures { Appends output.old output.new (flat_map (frames_of octagon_model) regions.now) }
{
    for region in regions {
        put_one(region, output);
    }
}

fn put_report(report: Report, regions: &[Region<Octagon>], output: &mut Output)
    ensures { Appends output.old output.new (report_frames octagon_model report (take report.count regions.now)) }
{
    put_all(front(regions, report.count), output);
    put_end(output, report.outcome, report.found, report.steps);
}

// The lines that tell a run's answer.
pub fn put_answer(
    answer: Result<Reply, SolverFault>,
    regions: &[Region<Octagon>],
    output: &mut Output,
)
    ensures { Appends output.old output.new (answer_frames octagon_model answer regions.now) }
{
    match answer {
        Ok(Reply::Ran(report)) => put_report(report, regions, output),
        Ok(Reply::Accepted | Reply::LimitIs(_)) => put_refusal(output, SolverFault::Phase, 0),
        Err(fault) => put_refusal(output, fault, 0),
    }
}
