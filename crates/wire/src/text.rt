// The grounds on which a text, or one line of it, is refused.
ghost use Rattle.std.specs.Prelude.{◌≡◌};
ghost use Rattle.std.specs.List.{prefix_len};
ghost use Rattle.interface.specs.Grounds.{first_fault};
ghost use Rattle.wire.specs.Bytes.{is_digit};
ghost use Rattle.wire.specs.Text.{size_grounds, place, line_check, LineSays};

use super::bytes::is_digit;
use interface::fault::TextFault;
use interface::guard::refuse;

// Refused if the text is empty or longer than 8,192 bytes.
pub fn text_size(text: &[u8]) -> Result<(), TextFault>
    ensures { result ≡ first_fault (size_grounds text.now) }
{
    refuse(!(1..=8192).contains(&text.len()), TextFault::Size)
}

fn count_digits(line: &[u8]) -> usize
    ensures { result ≡ prefix_len is_digit line.now }
{
    line.iter().take_while(|byte| is_digit(**byte)).count()
}

fn place_behind(count: usize) -> u16
    ensures { result ≡ place count }
{
    count.min(65534) as u16 + 1
}

// Each ground in its order, over the whole line. Apart from `check_line`, so that what each answer says of the line is
// proved from the grounds alone, and not once for each way out of the body.
fn line_faults(line: &[u8], ended: bool) -> Result<(), TextFault>
    ensures { result ≡ line_check line.now ended }
{
    let digits = count_digits(line);
    refuse(digits < line.len(), TextFault::Byte(place_behind(digits)))?;
    refuse(line.len() > 132, TextFault::Long(133))?;
    refuse(
        line.is_empty() || line.len() % 2 == 1,
        TextFault::Digits(place_behind(line.len())),
    )?;
    refuse(!ended, TextFault::Unended(place_behind(line.len())))
}

// Refused if a byte is no digit, if there is a 133rd digit, no digit or an odd count of them, or no line feed behind
// them, in this order, with the place of the first wrong byte, or of the one behind the digits.
pub fn check_line(line: &[u8], ended: bool) -> Result<(), TextFault>
    ensures value { result ≡ line_check line.now ended }
    ensures says { LineSays line.now ended result }
{
    line_faults(line, ended)
}
