// Reading a text line by line, each through every layer before the next.
ghost use Rattle.std.specs.Prelude.{◌≡◌};
ghost use Rattle.wire.specs.Readers.{left_of, advanced};
ghost use Rattle.problem.specs.Reading.{home_line, rule_line, stated_line, homed, ruled, size_check, first_home};

use super::any_rule::{kinds, read_rule};
use interface::fault::{RecordFault, SolverFault, TextFault};
use interface::home::Home;
use interface::rule::Rule;
use rules::any::AnyRule;
use wire::frame::Frame;
use wire::kind::next_frame;
use wire::reader::Reader;
use wire::text::text_size;

// This and `rule_of` read a record and check it: a function over both would take the two as closures, and be longer.
fn home_of(digits: &[u8]) -> Result<Option<Home>, RecordFault>
    ensures { result ≡ homed digits.now }
{
    let home = Home::read(digits);
    home.check()?;
    Ok(Some(home))
}

pub fn home_line(reader: &mut Reader) -> Result<Option<Home>, RecordFault>
    ensures value { result ≡ home_line (left_of reader.old) }
    ensures after { reader.new ≡ advanced reader.old }
{
    next_frame(reader, true, &kinds())?.map_or(Ok(None), home_of)
}

fn rule_of(digits: &[u8], n: u8) -> Result<Option<AnyRule>, RecordFault>
    ensures { result ≡ ruled n digits.now }
{
    let rule = read_rule(digits);
    rule.check(n)?;
    Ok(Some(rule))
}

fn rule_line(reader: &mut Reader, n: u8) -> Result<Option<AnyRule>, RecordFault>
    ensures value { result ≡ rule_line n (left_of reader.old) }
    ensures after { reader.new ≡ advanced reader.old }
{
    next_frame(reader, false, &kinds())?.map_or(Ok(None), |digits| rule_of(digits, n))
}

// A rule that has no place is refused after its own grounds.
pub fn stated_line(reader: &mut Reader, n: u8, count: usize) -> Result<Option<AnyRule>, SolverFault>
    ensures value { result ≡ stated_line n count (left_of reader.old) }
    ensures after { reader.new ≡ advanced reader.old }
{
    let Some(rule) = rule_line(reader, n)? else {
        return Ok(None);
    };
    if count >= 32 {
        return Err(SolverFault::Rules);
    }
    Ok(Some(rule))
}

// The text's size, as a ground of its own.
pub fn size_of(text: &[u8]) -> Result<(), SolverFault>
    ensures { result ≡ size_check text.now }
{
    text_size(text)?;
    Ok(())
}

// The home on the first line; a text that is not empty has one.
pub fn first_home(reader: &mut Reader) -> Result<Home, SolverFault>
    ensures value { result ≡ first_home (left_of reader.old) }
    ensures after { reader.new ≡ advanced reader.old }
{
    let Some(home) = home_line(reader)? else {
        return Err(SolverFault::from(TextFault::Size));
    };
    Ok(home)
}
