// What a run answers.
use super::outcome::Outcome;

// `count` regions stand at the front of the out slice, which the caller lends; `found` says whether any was handed out since the search began.
#[derive(Clone, Copy, PartialEq, Eq, Debug)]
pub struct Report {
    pub outcome: Outcome,
    pub steps: u32,
    pub count: usize,
    pub found: bool,
}
