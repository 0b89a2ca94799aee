// How many rules and checkpoints stand, counted from what the session accepted, for the words that are printed.
ghost use Rattle.std.specs.Prelude.{◌≡◌, ◌-◌};
ghost use Rattle.std.specs.List.{slice_get};
ghost use Rattle.fitter.specs.Counting.{one_more, back_to, moved, after};

use interface::fault::SolverFault;
use octagon::matrix::Octagon;
use rules::any::AnyRule;
use search_theory::checkpoint::Checkpoint;
use search_theory::reply::Reply;
use search_theory::request::Request;

#[derive(Clone, Copy)]
pub struct Counts {
    pub rules: usize,
    pub marks: usize,
}

// One more, where there is a place for it.
fn one_more(places: usize, count: usize) -> usize
    ensures { result ≡ one_more places count }
{
    if places <= count { count } else { count + 1 }
}

impl Counts {
    // As the last checkpoint noted them, where there is one.
    fn back(&self, checkpoints: &[Checkpoint<Octagon>]) -> Counts
        ensures { result ≡ back_to self.now (slice_get checkpoints.now (self.now.marks - 1)) }
    {
        let last = self.marks.saturating_sub(1);
        match checkpoints.get(last) {
            Some(checkpoint) => Counts {
                rules: checkpoint.rules,
                marks: last,
            },
            None => *self,
        }
    }

    // After an accepted request.
    fn moved(&self, request: Request<AnyRule>, checkpoints: &[Checkpoint<Octagon>]) -> Counts
        ensures { result ≡ moved self.now request checkpoints.now }
    {
        match request {
            Request::State(_) => Counts {
                rules: one_more(32, self.rules),
                ..*self
            },
            Request::Mark => Counts {
                marks: one_more(4, self.marks),
                ..*self
            },
            Request::Back => self.back(checkpoints),
            Request::Keep => Counts {
                marks: self.marks.saturating_sub(1),
                ..*self
            },
            Request::Begin | Request::Run(_) | Request::Leave | Request::Limit(_, _) => *self,
        }
    }

    // After a request and its answer; what is refused counts for nothing.
    pub(crate) fn after(
        &self,
        request: Request<AnyRule>,
        answer: &Result<Reply, SolverFault>,
        checkpoints: &[Checkpoint<Octagon>],
    ) -> Counts
        ensures { result ≡ after self.now request answer.now checkpoints.now }
    {
        match answer {
            Ok(_) => self.moved(request, checkpoints),
            Err(_) => *self,
        }
    }
}
