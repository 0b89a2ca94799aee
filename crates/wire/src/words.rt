// Frames of numbers: a code, a byte (how many settings there are, or which one), then the numbers, four bytes each.
ghost use Rattle.std.specs.Prelude.{◌≡◌, ◌<◌, ◌∷◌, map};
ghost use Rattle.std.specs.Int.{w32};
ghost use Rattle.std.specs.List.{range_with_len};
ghost use Rattle.std.proofs.Common.{of_z};
ghost use Rattle.wire.specs.Bytes.{be};
ghost use Rattle.wire.specs.Words.{word_byte, words_byte, words_frame_byte};

use super::bytes::i32_bytes;
use std::array;

fn word_byte(word: i32, r: usize) -> u8
    requires { r < 4 }
    ensures { result ≡ word_byte word r }
{
    i32_bytes(word)[r]
}

fn frame_byte(code: u8, n: u8, words: &[i32], j: usize) -> u8
    ensures { result ≡ words_frame_byte code n words.now j }
{
    match j {
        0 => code,
        1 => n,
        _ => word_byte(words.get((j - 2) / 4).copied().unwrap_or(0), (j - 2) % 4),
    }
}

// The first N bytes; the numbers past the words are 0.
pub fn words_frame<const N: usize>(code: u8, n: u8, words: &[i32]) -> [u8; N]
    ensures { result ≡ map (words_frame_byte code n words.now) (range_with_len 0 N) }
{
    array::from_fn(|j| frame_byte(code, n, words, j))
}

// The frame of two nodes, or two settings, and a number: a code, a byte for each of the two, then the number's four.
pub fn nodes_frame(code: u8, p: u8, q: u8, number: i32) -> [u8; 7]
    ensures { result ≡ code ∷ p ∷ q ∷ be 4 (of_z w32 number) }
{
    let word = i32_bytes(number);
    [code, p, q, word[0], word[1], word[2], word[3]]
}
