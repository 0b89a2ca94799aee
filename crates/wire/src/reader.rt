// A reader over a lent text: it hands out each line's digits as a part of that text.
ghost use Rattle.std.specs.Prelude.{◌≡◌, ◌+◌, ◌≤◌, Ok, Some, length};
ghost use Rattle.wire.specs.Readers.{left_of, seen, advanced};
ghost use Rattle.wire.specs.Text.{line_length, next_line, used, count_up};

use super::text::check_line;
use interface::fault::TextFault;

// `pos` bytes are used up; `line` is the number of the line that was looked at last, counted from 1.
#[derive(Drop)]
pub struct Reader<'a> {
    text: &'a [u8],
    pos: usize,
    pub line: u16,
}

// How many bytes stand in front of the first line feed, or of the end.
fn line_length(rest: &[u8]) -> usize
    ensures { result ≡ line_length rest.now }
{
    rest.iter().take_while(|byte| **byte != b'\n').count()
}

fn next_number(line: u16) -> u16
    ensures { result ≡ count_up line }
{
    line.saturating_add(1)
}

impl<'a> Reader<'a> {
    // A reader in front of the first line.
    pub fn new(text: &'a [u8]) -> Reader<'a>
        ensures { result ≡ record { text = text.entry; pos = 0; line = 0 } }
    {
        Reader {
            text,
            pos: 0,
            line: 0,
        }
    }

    // The next line's digits, without the line feed; nothing where no byte is left. A line that is refused is counted
    // and not passed.
    pub fn next_line(&mut self) -> Result<Option<&'a [u8]>, TextFault>
        ensures value { seen result ≡ next_line (left_of self.old) }
        ensures after { self.new ≡ advanced self.old }
    {
        let text = self.text;
        if self.pos >= text.len() {
            return Ok(None);
        }
        self.line = next_number(self.line);
        let rest = &text[self.pos..];
        let length = line_length(rest);
        let line = &rest[..length];
        check_line(line, length < rest.len())?;
        self.pass(line);
        Ok(Some(line))
    }

    // Past a line and its line feed.
    fn pass(&mut self, line: &[u8])
        requires { self.old.pos + length line.now ≤ length self.old.text.now }
        ensures { self.new ≡ record self.old { pos = self.old.pos + used (Ok (Some line.now)) } }
    {
        self.pos += line.len() + 1;
    }
}
