// The commands, and how their words are read.
use super::words::{coefficient, node, number, setting};
use interface::home::{Home, Span};
use rules::any::AnyRule;
use rules::apart::ApartRule;
use rules::pair::PairRule;
use rules::step::StepRule;
use search_theory::request::Request;
use sum_rule::sum::{SumRule, Term};

// Home opens a session; any other command is a call of the session that is open.
#[derive(Clone, Copy)]
pub enum Command {
    Home(Home),
    Call(Request<AnyRule>),
}

// A low and a high for each setting. A ninth is counted, so that the home is refused, and not kept.
fn read_home(words: &[&str]) -> Option<Home> {
    if words.len() % 2 == 1 {
        return None;
    }
    let mut home = Home {
        n: (words.len() / 2).min(9) as u8,
        spans: [Span::default(); 8],
    };
    for (k, ends) in words.chunks_exact(2).enumerate() {
        let [low, high] = ends else {
            return None;
        };
        let span = Span {
            low: number(low)?,
            high: number(high)?,
        };
        if k < 8 {
            home.spans[k] = span;
        }
    }
    Some(home)
}

fn term(coefficient_word: &str, setting_word: &str) -> Option<Term> {
    Some(Term {
        setting: setting(setting_word)?,
        coefficient: coefficient(coefficient_word)?,
    })
}

// Up to three terms; those that are left out have coefficient 0.
fn read_sum(words: &[&str]) -> Option<SumRule> {
    let none = Term {
        setting: 0,
        coefficient: 0,
    };
    let (first, second, third, t) = match words {
        ["<=", t] => (none, none, none, t),
        [k, s, "<=", t] => (term(k, s)?, none, none, t),
        [k, s, l, u, "<=", t] => (term(k, s)?, term(l, u)?, none, t),
        [k, s, l, u, m, v, "<=", t] => (term(k, s)?, term(l, u)?, term(m, v)?, t),
        _ => return None,
    };
    Some(SumRule {
        first,
        second,
        third,
        t: number(t)?,
    })
}

fn read_pair(p: &str, q: &str, c: &str) -> Option<PairRule> {
    Some(PairRule {
        p: node(p)?,
        q: node(q)?,
        c: number(c)?,
    })
}

fn read_apart(a: &str, b: &str, d: &str) -> Option<ApartRule> {
    Some(ApartRule {
        a: setting(a)?,
        b: setting(b)?,
        d: number(d)?,
    })
}

fn read_step(a: &str, m: &str, r: &str) -> Option<StepRule> {
    Some(StepRule {
        a: setting(a)?,
        m: number(m)?,
        r: number(r)?,
    })
}

// The four rules in words.
fn read_rule(words: &[&str]) -> Option<AnyRule> {
    match words {
        ["pair", p, q, "<=", c] => read_pair(p, q, c).map(AnyRule::from),
        ["sum", rest @ ..] => read_sum(rest).map(AnyRule::from),
        ["apart", a, b, ">=", d] => read_apart(a, b, d).map(AnyRule::from),
        ["step", a, "by", m, "rest", r] => read_step(a, m, r).map(AnyRule::from),
        _ => None,
    }
}

fn read_request(words: &[&str]) -> Option<Request<AnyRule>> {
    match words {
        ["mark"] => Some(Request::Mark),
        ["back"] => Some(Request::Back),
        ["keep"] => Some(Request::Keep),
        ["begin"] => Some(Request::Begin),
        ["leave"] => Some(Request::Leave),
        ["run", budget] => Some(Request::Run(budget.parse::<u32>().ok()?)),
        ["limit", p, q] => Some(Request::Limit(node(p)?, node(q)?)),
        _ => Some(Request::State(read_rule(words)?)),
    }
}

// The command that the words of a line give, where they give one.
pub(crate) fn read_command(words: &[&str]) -> Option<Command> {
    match words {
        ["home", rest @ ..] => Some(Command::Home(read_home(rest)?)),
        _ => Some(Command::Call(read_request(words)?)),
    }
}
