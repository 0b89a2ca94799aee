// What an accepted call answers.
use super::report::Report;

// A run answers its report, a limit its number; any other call answers nothing more.
#[derive(Clone, Copy, PartialEq, Eq, Debug)]
pub enum Reply {
    Accepted,
    Ran(Report),
    LimitIs(i32),
}
