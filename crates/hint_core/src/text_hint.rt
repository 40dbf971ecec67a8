//! The hints for lines that aren't text, or are too long.
ghost use Rattle.std.specs.Prelude.{◌≡◌, option_map, map, find, [], nat_lt, length, unwrap_or};
ghost use Rattle.payload_core.specs.Words.{longest_word};
ghost use Rattle.hint_core.specs.Hints.{plain_hint};
ghost use Rattle.hint_core.specs.Choices.{is_text_byte, byte_text, byte_from, not_text, too_long};

use crate::first_bytes::is_marked;
use crate::hint::{Hint, about};
use crate::line_words::behind;
use grammar_core::LONGEST_LINE;
use payload_core::LONGEST_WORD;

/// For a byte that no text can have: what sort it is, and for most sorts what to write instead.
#[tactic(auto, unfolding(crate::specs::Choices::byte_text))]
fn byte_text(byte: u8) -> &'static str
    ensures { result.now ≡ byte_text byte }
{
    match byte {
        b'\t' => ", a tab; spaces divide words",
        b'\r' => ", a carriage return; `tr -d '\\r'` takes them out",
        0..=0x7f => ", a control character; words have none",
        _ => ", beyond ASCII; words may spell such bytes, as `%C3%BC` does",
    }
}

fn is_text_byte(byte: u8) -> bool
    ensures { result ≡ is_text_byte byte }
{
    (0x20..=0x7e).contains(&byte)
}

/// The hint for the first byte of `line` that a text can't have; `None` if there is no such byte.
fn byte_hint(line: &[u8]) -> Option<Hint<'static>>
    ensures { option_map plain_hint result ≡ byte_from 1 line.now }
{
    for (at, byte) in line.iter().enumerate() {
        if !is_text_byte(*byte) {
            return Some(Hint::Byte {
                place: at + 1,
                byte: *byte,
                after: byte_text(*byte),
            });
        }
    }
    None
}

/// The hint for `line`, the line with this number, if it isn't text; `None` if it is text.
#[tactic(auto, unfolding(crate::specs::Choices::not_text))]
pub(crate) fn not_text(number: u64, line: &[u8]) -> Option<Hint<'static>>
    ensures { option_map plain_hint result ≡ not_text number line.now }
{
    if number == 1 && is_marked(line) {
        return Some(Hint::Plain("the input begins with a byte order mark; save it without one"));
    }
    byte_hint(line)
}

/// The first of the words that has more than 200 bytes; empty if none has.
fn long_word<'l>(words: &[&'l str]) -> &'l str
    ensures { result.now ≡ unwrap_or (find (λ word. nat_lt longest_word (length word)) (map (λ word. word.now) words.now)) [] }
{
    // form: the proof goes along the loop
    for word in words {
        if word.len() > LONGEST_WORD {
            return word;
        }
    }
    ""
}

/// The hint for a line that is too long, or has a topic, key or metadata that is too long; else `None`.
#[tactic(auto, unfolding(crate::specs::Choices::too_long))]
pub(crate) fn too_long<'l>(line: &[u8], words: &[&'l str]) -> Option<Hint<'l>>
    ensures { option_map plain_hint result ≡ too_long line.now (map (λ word. word.now) words.now) }
{
    if line.len() > LONGEST_LINE {
        return Some(Hint::Plain("a line has at most 4096 bytes"));
    }
    about(
        "",
        long_word(behind(words, 3)),
        " has more than 200 bytes, too many for a word",
    )
}
