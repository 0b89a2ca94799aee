// The grounds of a refusal in the fitter's words, and no Display of the faults: the library speaks in numbers.
use interface::fault::{RecordFault, SolverFault};

fn of_record(fault: RecordFault) -> &'static str {
    match fault {
        RecordFault::Frame(_) => "the frame is at fault",
        RecordFault::Settings(_) => "the settings are not from 1 to 8 in number",
        RecordFault::Range(_) => "a low or a high is beyond a million",
        RecordFault::Crossed(_) => "a low is above its high",
        RecordFault::Node(_) => "a setting is not on the line",
        RecordFault::Clash(_) => "one setting is named twice, or with its own negative",
        RecordFault::Number(_) => "a number is out of range",
        RecordFault::Empty(_) => "the sum has no term",
    }
}

pub(crate) fn ground(fault: SolverFault) -> &'static str {
    match fault {
        SolverFault::Record(fault) => of_record(fault),
        SolverFault::Rules => "no place for a rule",
        SolverFault::Phase =>
            "not in this phase: run and leave need a search, limit fits always, the rest needs no search",
        SolverFault::Short => "the memory is shorter than what it holds",
        SolverFault::Unmarked => "no checkpoint is set",
        SolverFault::Marks => "no place for a checkpoint",
        SolverFault::Stack => "no place for a region that waits",
        SolverFault::Void => "no limit, since no setting is left",
    }
}
