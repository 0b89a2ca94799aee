// How often ranges can be halved: the bits of a width, the widest of eight ranges, and all halvings together.
#![tactic(auto)]

ghost use Rattle.std.specs.Prelude.{◌≡◌, ◌+◌, ◌-◌, ◌<◌, ◌≤◌};
ghost use Rattle.std.specs.Int.Count.{count_leading_zeros};
ghost use Rattle.halving.specs.Halvings.{bits_for, LeastPower, widest_of, all_single, halvings_of, HalvingLowers};

// How many binary digits the width has. Apart from `bits`, as `bits_of` is from `halvings`, so that a wrong body is refused
// at the code.
fn digits(width: u32) -> u32
    ensures { result ≡ 32 - count_leading_zeros 32 width }
{
    32 - width.leading_zeros()
}

// The least b with 2^b at least the number of values of a range of this width.
pub fn bits(width: u32) -> u32
    ensures value { result ≡ bits_for (width + 1) }
    ensures least { LeastPower (width + 1) result }
    ensures bound { result ≤ 32 }
{
    digits(width)
}

fn bits_of(width: &u32) -> u32
    ensures { result ≡ bits_for (width.now + 1) }
{
    bits(*width)
}

// The widest range, the first among equals.
pub fn widest(widths: &[u32; 8]) -> usize
    ensures value { result ≡ widest_of widths.now }
    ensures bound { result < 8 }
{
    let mut widest = 0;
    for (k, width) in widths.iter().enumerate() {
        if widths[widest] < *width {
            widest = k;
        }
    }
    widest
}

// Whether no range has two values.
pub fn single(widths: &[u32; 8]) -> bool
    ensures { result ≡ all_single widths.now }
{
    widths.iter().all(|w| *w == 0)
}

// How often the ranges can be halved until each has one value.
pub fn halvings(widths: &[u32; 8]) -> u32
    ensures { result ≡ halvings_of widths.now }
{
    widths.iter().map(bits_of).sum()
}

// Widths that do not grow do not raise the halvings, and to halve one range lowers them.
pub fn halving_lowers()
    ensures { HalvingLowers }
{}
