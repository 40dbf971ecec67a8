//! Splits a script into lines and a line into words, and reads numbers.
ghost use Rattle.std.specs.Prelude.{◌≡◌, ◌<◌, [], ◌∷◌, ◌++◌, false, length, map, option_copied, IfOk, IfSome, IsTrue};
ghost use Rattle.std.specs.List.{list_all, prefix_len};
ghost use Rattle.std.specs.Char.{is_ascii_digit};
ghost use Rattle.payload_core.specs.Words.{is_word_byte};
ghost use Rattle.grammar_core.specs.Results.{Gives};
ghost use Rattle.grammar_core.specs.Grammar.{text_words};
ghost use Rattle.grammar_core.specs.Words.{begins_word, is_numeral, lines_behind, lines_of, number_of, words_of};

use crate::fault::FaultKind;
use dots_core::Oom;
use memchr::memchr;
use smallvec::SmallVec;
use std::alloc::Allocator;
use std::str;

/// The first line without its line feed, and the bytes behind that line feed. If no line feed ends the line, `None`
/// stands in place of the bytes.
pub fn first_line(bytes: &[u8]) -> (&[u8], Option<&[u8]>)
    ensures lines { lines_of bytes.now ≡ result.0.now ∷ lines_behind (option_copied result.1) }
    ensures shorter { IfSome result.1 (λ behind. length behind.now < length bytes.now) }
{
    match memchr(b'\n', bytes) {
        Some(end) => (&bytes[..end], Some(&bytes[end + 1..])),
        None => (bytes, None),
    }
}

/// The words of a line, in order: what stands between its spaces, without the empty pieces.
pub fn words_of<A: Allocator>(alloc: A, line: &str) -> Result<Vec<&str, A>, Oom>
    ensures { IfOk result (λ words. map (λ word. word.now) words.items ≡ words_of line.now) }
{
    line.split(' ')
        .filter(|word| !word.is_empty())
        .collect(alloc)
}

/// How many bytes at the front are bytes that a word may have, from 0x21 to 0x7E.
fn word_len(bytes: &[u8]) -> usize
    ensures { result ≡ prefix_len is_word_byte bytes.now }
{
    bytes
        .iter()
        .position(|byte| !(0x21..=0x7e).contains(byte))
        .unwrap_or(bytes.len())
}

/// The word at the front, empty if there is none, and the bytes behind it.
fn first_word(bytes: &[u8]) -> (&str, &[u8])
    ensures whole { bytes.now ≡ result.0.now ++ result.1.now }
    ensures visible { IsTrue (list_all is_word_byte result.0.now) }
    ensures longest { begins_word result.1.now ≡ false }
{
    let (word, behind) = bytes.split_at(word_len(bytes));
    // the bytes are ASCII, and so UTF-8
    (unsafe { str::from_utf8_unchecked(word) }, behind)
}

/// Puts the words of `line` into `words`, which must be empty; up to eight words take no memory. `NotText` if a byte is
/// below 0x20 or above 0x7E; `words` then has the words before that byte.
pub fn put_words<'l, A: Allocator>(
    words: &mut SmallVec<&'l str, 8, &A>,
    line: &'l [u8],
) -> Result<(), FaultKind>
    requires { words.old.items ≡ [] }
    ensures { Gives (λ _. map (λ word. word.now) words.new.items) result (text_words line.now) }
{
    let mut rest = line;
    while let [first, after @ ..] = rest {
        if *first == b' ' {
            rest = after;
            continue;
        }
        let (word, behind) = first_word(rest);
        if word.is_empty() {
            return Err(FaultKind::NotText);
        }
        words.push(word)?;
        rest = behind;
    }
    Ok(())
}

/// Whether each byte is a decimal digit.
fn are_digits(bytes: &[u8]) -> bool
    ensures { result ≡ list_all is_ascii_digit bytes.now }
{
    bytes.iter().all(|byte| byte.is_ascii_digit())
}

/// Whether `digits` are 1 to 20 decimal digits, with no leading zero but for `0` itself.
fn is_numeral(digits: &[u8]) -> bool
    ensures { result ≡ is_numeral digits.now }
{
    if digits.is_empty() || digits.len() > 20 {
        return false;
    }
    if digits[0] == b'0' && digits.len() > 1 {
        return false;
    }
    are_digits(digits)
}

/// The number that `digits` spell. `None` if they aren't 1 to 20 decimal digits, if they have a leading zero (but for
/// `0` itself), or if the number doesn't fit into 64 bits.
pub fn number_of(digits: &str) -> Option<u64>
    ensures { result ≡ number_of digits.now }
{
    if !is_numeral(digits.as_bytes()) {
        return None;
    }
    digits.parse::<u64>().ok()
}
