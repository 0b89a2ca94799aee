// Bytes and numbers, straight from a line's digits.
ghost use Rattle.std.specs.Prelude.{◌≡◌, ◌+◌, ◌*◌, ◌/◌, ◌<◌, length, slice_index};
ghost use Rattle.std.specs.Int.{w8, w32};
ghost use Rattle.std.proofs.Common.{to_z, of_z};
ghost use Rattle.wire.specs.Bytes.{is_digit, digit_value, byte_of, unhex, val, part, be};

use std::array;

pub fn is_digit(byte: u8) -> bool
    ensures { result ≡ is_digit byte }
{
    matches!(byte, b'0'..=b'9' | b'A'..=b'F')
}

// What a digit is worth, 0 for any other byte.
fn digit_value(digit: u8) -> u8
    ensures value { result ≡ digit_value digit }
    ensures bound { result < 16 }
{
    match digit {
        b'0'..=b'9' => digit - b'0',
        b'A'..=b'F' => digit - b'A' + 10,
        _ => 0,
    }
}

fn pair_value(high: u8, low: u8) -> u8
    ensures { result ≡ byte_of high low }
{
    16 * digit_value(high) + digit_value(low)
}

// Byte i of a line, 0 where it has none.
#[tactic(auto, using(crate::proofs::Hex::unhex_at, crate::proofs::Hex::unhex_past))]
pub fn byte_at(digits: &[u8], i: usize) -> u8
    ensures { result ≡ slice_index (unhex digits.now) i }
{
    if i < digits.len() / 2 {
        pair_value(digits[2 * i], digits[2 * i + 1])
    } else {
        0
    }
}

// The byte as a signed number.
pub fn i8_at(digits: &[u8], i: usize) -> i8
    ensures { result ≡ to_z w8 (val (part 1 i (unhex digits.now))) }
{
    byte_at(digits, i).cast_signed()
}

// The signed number that starts at byte i.
pub fn i32_at(digits: &[u8], i: u16) -> i32
    ensures { result ≡ to_z w32 (val (part 4 i (unhex digits.now))) }
{
    i32::from_be_bytes(array::from_fn(|k| byte_at(digits, i as usize + k)))
}

// The four bytes of a number, the highest first.
pub fn u32_bytes(n: u32) -> [u8; 4]
    ensures { result ≡ be 4 n }
{
    n.to_be_bytes()
}

// The four bytes of a signed number, by two's complement, the highest first.
pub fn i32_bytes(z: i32) -> [u8; 4]
    ensures { result ≡ be 4 (of_z w32 z) }
{
    z.to_be_bytes()
}

// The two bytes of a number, the higher first.
pub fn u16_bytes(x: u16) -> [u8; 2]
    ensures { result ≡ be 2 x }
{
    x.to_be_bytes()
}
