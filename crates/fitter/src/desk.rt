// The fitter's desk: the session that is open, if one is, and its memory.
ghost use Rattle.std.specs.Prelude.{◌≡◌};
ghost use Rattle.fitter.specs.Counting.{rules_in, marks_in};
ghost use Rattle.fitter.specs.Sessions.{Session, Opened, Asked};

use super::counts::Counts;
use super::store::Memory;
use interface::fault::SolverFault;
use interface::home::Home;
use octagon::matrix::Octagon;
use rules::any::AnyRule;
use search::solver::Solver;
use search_theory::reply::Reply;
use search_theory::request::Request;

// No solver before a first home; then always one that calls on this memory led to. Every session has the same memory.
#[derive(Clone, Copy)]
pub struct Desk {
    pub solver: Option<Solver<Octagon>>,
    pub counts: Counts,
    pub memory: Memory,
    ghost session: { Session solver memory },
    ghost standing: { rules_in solver counts.rules ≡ counts.rules },
    ghost marked: { marks_in solver counts.marks ≡ counts.marks },
}

impl Desk {
    pub(crate) fn new() -> Desk {
        Desk {
            solver: None,
            counts: Counts { rules: 0, marks: 0 },
            memory: Memory::new(),
        }
    }

    // Opens a session from a home; where that is refused, the earlier one goes on.
    pub(crate) fn open(&mut self, home: &Home) -> Result<(), SolverFault>
        ensures cases { Opened result home.now self.old.solver self.new.solver }
        ensures same { self.new.memory ≡ self.old.memory }
    {
        let solver = self.memory.open(home)?;
        self.solver = Some(solver);
        self.counts = Counts { rules: 0, marks: 0 };
        Ok(())
    }

    // The session's answer to a request, nothing where no session is open.
    pub(crate) fn ask(&mut self, request: Request<AnyRule>) -> Option<Result<Reply, SolverFault>>
        ensures { Asked self.old.solver self.old.memory request result self.new.solver self.new.memory }
    {
        let Some(mut solver) = self.solver else {
            return None;
        };
        // while its memory is lent, the session is not on the desk
        self.solver = None;
        let answer = self.memory.ask(&mut solver, request);
        self.counts = self
            .counts
            .after(request, &answer, &self.memory.checkpoints);
        self.solver = Some(solver);
        Some(answer)
    }
}
