// The home record: how many settings the line has, and from where to where each may go.
ghost use Rattle.std.specs.Prelude.{◌≡◌, ◌<◌, ◌≤◌};
ghost use Rattle.std.specs.List.{range_with_len, flat_map};
ghost use Rattle.interface.specs.Grounds.{first_fault};
ghost use Rattle.interface.specs.Homes.{home_check, range_grounds, crossed_grounds};
ghost use Rattle.interface.specs.Numbers.{within};

use super::fault::RecordFault;
use super::guard::refuse;

// From where to where a setting may go.
#[derive(Clone, Copy, Debug, Default, PartialEq, Eq)]
pub struct Span {
    pub low: i32,
    pub high: i32,
}

// The first `n` spans count; what lies past them is ignored. An array and a count, since n may be one that the check
// refuses.
#[derive(Clone, Copy)]
pub struct Home {
    pub n: u8,
    pub spans: [Span; 8],
}

// Whether z is at most a million away from 0.
fn in_range(z: i32) -> bool
    ensures { result ≡ within 1000000 z }
{
    (-1_000_000..=1_000_000).contains(&z)
}

impl Home {
    // Refused if the number of settings is not from 1 to 8, if a low or high is beyond a million, or if a low is
    // above its high, in this order, each with the place of the frame byte that starts the first wrong field.
    pub fn check(&self) -> Result<(), RecordFault>
        ensures { result ≡ home_check self.now }
    {
        refuse(!(1..=8).contains(&self.n), RecordFault::Settings(2))?;
        self.check_ranges()?;
        self.check_order()
    }

    // That k is below 8 and n at most 8 is asked twice each below; types for them would be made and taken apart at once.
    fn check_range(&self, k: u8) -> Result<(), RecordFault>
        requires { k < 8 }
        ensures { result ≡ first_fault (range_grounds self.now k) }
    {
        let span = self.spans[k as usize];
        refuse(!in_range(span.low), RecordFault::Range(3 + 8 * k as u16))?;
        refuse(!in_range(span.high), RecordFault::Range(7 + 8 * k as u16))
    }

    fn check_crossed(&self, k: u8) -> Result<(), RecordFault>
        requires { k < 8 }
        ensures { result ≡ first_fault (crossed_grounds self.now k) }
    {
        let span = self.spans[k as usize];
        refuse(span.high < span.low, RecordFault::Crossed(7 + 8 * k as u16))
    }

    fn check_ranges(&self) -> Result<(), RecordFault>
        requires { self.now.n ≤ 8 }
        ensures { result ≡ first_fault (flat_map (range_grounds self.now) (range_with_len 0 self.now.n)) }
    {
        // by number: the place that a fault names is made of k
        for k in 0..self.n {
            self.check_range(k)?;
        }
        Ok(())
    }

    fn check_order(&self) -> Result<(), RecordFault>
        requires { self.now.n ≤ 8 }
        ensures { result ≡ first_fault (flat_map (crossed_grounds self.now) (range_with_len 0 self.now.n)) }
    {
        // a loop of its own, as every range is tried before any order; one function over either check would need
        // longer clauses than both loops
        for k in 0..self.n {
            self.check_crossed(k)?;
        }
        Ok(())
    }
}
