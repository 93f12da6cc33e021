//! A note is written piece by piece into a buffer of 256 bytes.
//!
//! `at` is where the text ends so far. Each call writes from there on, leaves what stands before,
//! and gives where the text ends then.
#![tactic(auto, using(crate::proofs::Spaced::word_after))]

ghost use Rattle.clr_report.specs.Lines.{spaced, words_joined};
ghost use Rattle.std.specs.Fmt.{signed_decimal};
ghost use Rattle.std.specs.Prelude.{◌≡◌, ◌+◌, ◌≤◌, [], ◌∷◌, ◌++◌, decimal, length, take};

use itoa::Buffer;

/// Writes a piece.
pub(crate) fn put(piece: &[u8], at: usize, out: &mut [u8; 256]) -> usize
    requires { at + length piece.now ≤ 256 }
    ensures end { result ≡ at + length piece.now }
    ensures text { take result out.new ≡ take at out.old ++ piece.now }
{
    let end = at + piece.len();
    out[at..end].copy_from_slice(piece);
    end
}

/// Writes a word after a space.
pub(crate) fn put_word(word: &[u8], at: usize, out: &mut [u8; 256]) -> usize
    requires { at + 1 + length word.now ≤ 256 }
    ensures end { result ≡ at + 1 + length word.now }
    ensures text { take result out.new ≡ take at out.old ++ spaced (word.now ∷ []) }
{
    let start = put(b" ", at, out);
    put(word, start, out)
}

/// Writes a number after a space, decimal without leading zeros.
pub(crate) fn put_number(number: u64, at: usize, out: &mut [u8; 256]) -> usize
    requires { at ≤ 200 }
    ensures end { result ≤ at + 21 }
    ensures text { take result out.new ≡ take at out.old ++ spaced (decimal number ∷ []) }
{
    let mut digits = Buffer::new();
    put_word(digits.format(number).as_bytes(), at, out)
}

/// Writes a number of either sign after a space, decimal without leading zeros.
pub(crate) fn put_signed(number: i128, at: usize, out: &mut [u8; 256]) -> usize
    requires { at ≤ 200 }
    ensures end { result ≤ at + 41 }
    ensures text { take result out.new ≡ take at out.old ++ spaced (signed_decimal number ∷ []) }
{
    let mut digits = Buffer::new();
    put_word(digits.format(number).as_bytes(), at, out)
}

/// Writes a phrase at the front, and a number after a space.
pub(crate) fn put_count(phrase: &[u8], number: u64, out: &mut [u8; 256]) -> usize
    requires { length phrase.now ≤ 150 }
    ensures end { result ≤ length phrase.now + 21 }
    ensures text { take result out.new ≡ words_joined (phrase.now ∷ decimal number ∷ []) }
{
    let end = put(phrase, 0, out);
    put_number(number, end, out)
}

/// Writes a label and its number, each after a space.
pub(crate) fn put_labelled(label: &[u8], number: u32, at: usize, out: &mut [u8; 256]) -> usize
    requires { at + 1 + length label.now ≤ 200 }
    ensures end { result ≤ at + length label.now + 22 }
    ensures text { take result out.new ≡
        take at out.old ++ spaced (label.now ∷ decimal number ∷ []) }
{
    put_labelled_wide(label, u64::from(number), at, out)
}

/// The same for a number of 64 bits.
pub(crate) fn put_labelled_wide(label: &[u8], number: u64, at: usize, out: &mut [u8; 256]) -> usize
    requires { at + 1 + length label.now ≤ 200 }
    ensures end { result ≤ at + length label.now + 22 }
    ensures text { take result out.new ≡
        take at out.old ++ spaced (label.now ∷ decimal number ∷ []) }
{
    let end = put_word(label, at, out);
    put_number(number, end, out)
}
