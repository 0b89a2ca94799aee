// What a text states, and why it is refused.
ghost use Rattle.std.specs.Prelude.{◌≡◌, ◌+◌, ◌<◌, ◌≤◌, [], length, slice_set};
ghost use Rattle.wire.specs.Readers.{left_of};
ghost use Rattle.problem.specs.Problems.{rules_in, seen_by, rules_seen};
ghost use Rattle.problem.specs.Reading.{rules_from, with_rules, read_text};

use super::any_rule::no_rule;
use super::front::front;
use super::reading::{first_home, size_of, stated_line};
use interface::fault::SolverFault;
use interface::home::Home;
use rules::any::AnyRule;
use wire::reader::Reader;

// A home and its rules, the first `count` of the array. An array and a count, since a problem is Copy and an ArrayVec
// is not.
#[derive(Clone, Copy)]
pub struct Problem {
    pub home: Home,
    pub rules: [AnyRule; 32],
    pub count: usize,
}

// The first fault, and the number of the line that has it; 0 where it is the whole text's.
#[derive(Clone, Copy)]
pub struct Refusal {
    pub fault: SolverFault,
    pub line: u16,
}

impl Problem {
    // The rules that count.
    pub fn stated(&self) -> &[AnyRule]
        ensures { result.now ≡ rules_in self.now }
    {
        front(&self.rules, self.count)
    }

    fn add(&mut self, rule: AnyRule)
        requires { self.old.count < 32 }
        ensures { self.new ≡ record { home = self.old.home; rules = slice_set self.old.rules self.old.count rule; count = self.old.count + 1 } }
    {
        self.rules[self.count] = rule;
        self.count += 1;
    }
}

// The rules of at most so many lines join those of the problem.
fn read_rules(reader: &mut Reader, problem: &mut Problem, lines: usize) -> Result<(), Refusal>
    requires { (problem.old.count ≤ 32) × (length problem.old.rules ≡ 32) }
    ensures home { problem.new.home ≡ problem.old.home }
    ensures rules { rules_seen result (rules_in problem.new) ≡ rules_from lines problem.old.home.n (left_of reader.old) reader.old.line (rules_in problem.old) }
{
    for k in 0..lines {
        let next = stated_line(reader, problem.home.n, problem.count).map_err(|fault| Refusal {
            fault,
            line: reader.line,
        })?;
        let Some(rule) = next else {
            return Ok(());
        };
        problem.add(rule);
    }
    Ok(())
}

// The home with the rules of the lines behind it.
fn rules_behind(reader: &mut Reader, home: Home, lines: usize) -> Result<Problem, Refusal>
    ensures { seen_by result ≡ with_rules home (rules_from lines home.n (left_of reader.old) reader.old.line []) }
{
    let mut problem = Problem {
        home,
        rules: [no_rule(); 32],
        count: 0,
    };
    read_rules(reader, &mut problem, lines)?;
    Ok(problem)
}

// Reads a text: its home and its rules, or the first fault with the number of its line.
pub fn read_problem(text: &[u8]) -> Result<Problem, Refusal>
    ensures { seen_by result ≡ read_text text.now }
{
    size_of(text).map_err(|fault| Refusal { fault, line: 0 })?;
    let mut reader = Reader::new(text);
    let home = first_home(&mut reader).map_err(|fault| Refusal { fault, line: 1 })?;
    rules_behind(&mut reader, home, text.len())
}
