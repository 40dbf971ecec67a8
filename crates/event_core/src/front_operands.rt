//! Reads numbers and words off the front of compact JSON, each behind a comma.
ghost use Rattle.std.specs.Prelude.{◌≡◌, IfOk, nat_lt, true};
ghost use Rattle.serde_json.specs.Data.{string};
ghost use Rattle.payload_core.specs.Words.{is_word};
ghost use Rattle.event_core.specs.Format.{whole};
ghost use Rattle.json_core.specs.Compact.{IsFront, IsNext};

use json_core::{Unread, behind, string_front, whole_front};
use payload_core::{Word, WordFault};
use std::alloc::Allocator;

/// The number of a node or an actor that the text begins with, and what follows.
pub(crate) fn node_front(text: &str) -> Result<(u16, &str), Unread>
    ensures front { IfOk result (λ front. IsFront text.now (whole front.0) front.1.now) }
    ensures below { IfOk result (λ front. nat_lt front.0 65536 ≡ true) }
{
    let (number, rest) = whole_front(text)?;
    if number < 65_536 {
        Ok((number as u16, rest))
    } else {
        Err(Unread::Shape)
    }
}

/// The number of a node behind a comma, and what follows.
pub(crate) fn next_node(text: &str) -> Result<(u16, &str), Unread>
    ensures next { IfOk result (λ front. IsNext text.now (whole front.0) front.1.now) }
    ensures below { IfOk result (λ front. nat_lt front.0 65536 ≡ true) }
{
    let number = behind(text, ",")?;
    node_front(number)
}

/// The whole number behind a comma, and what follows.
pub(crate) fn next_whole(text: &str) -> Result<(u64, &str), Unread>
    ensures { IfOk result (λ front. IsNext text.now (whole front.0) front.1.now) }
{
    let number = behind(text, ",")?;
    whole_front(number)
}

/// The word with this text; `Shape` if it is none.
fn word_of<'a, B: Allocator>(alloc: &'a B, text: &str) -> Result<Word<&'a B>, Unread>
    ensures { IfOk result (λ word. (word ≡ text.now) × (is_word text.now ≡ true)) }
{
    match Word::new(alloc, text) {
        Ok(word) => Ok(word),
        Err(WordFault::BadWord) => Err(Unread::Shape),
        Err(WordFault::OutOfMemory) => Err(Unread::Memory),
    }
}

/// The word behind a comma, and what follows. Its string is read into `read`.
pub(crate) fn next_word<'a, 't, B: Allocator>(
    alloc: &'a B,
    read: &mut String,
    text: &'t str,
) -> Result<(Word<&'a B>, &'t str), Unread>
    ensures next { IfOk result (λ front. IsNext text.now (string front.0) front.1.now) }
    ensures word { IfOk result (λ front. is_word front.0 ≡ true) }
{
    let rest = string_front(read, behind(text, ",")?)?;
    Ok((word_of(alloc, read.as_str())?, rest))
}
