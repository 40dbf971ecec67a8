//! Reads a node's number or a word at a place of a JSON list.
ghost use Rattle.serde_json.specs.View.{view};
ghost use Rattle.json_core.specs.Decoded.{Gives};
ghost use Rattle.event_core.specs.Decoding.{node_in, word_in};

use json_core::{Unread, number_in, text_in};
use payload_core::{Word, WordFault};
use serde_json::Value;
use std::alloc::Allocator;

/// The number of a node or an actor at `place`; `Shape` unless a whole number below 65,536 stands there.
pub(crate) fn node_in(list: &Value, place: usize) -> Result<u16, Unread>
    ensures { Gives (λ n. n) result (node_in place (view list.now)) }
{
    let number = number_in(list, place)?;
    if number < 65_536 {
        Ok(number as u16)
    } else {
        Err(Unread::Shape)
    }
}

/// The word at `place`; `Shape` unless a text stands there that may be a word.
pub(crate) fn word_in<'a, B: Allocator>(
    alloc: &'a B,
    list: &Value,
    place: usize,
) -> Result<Word<&'a B>, Unread>
    ensures { Gives (λ w. w) result (word_in place (view list.now)) }
{
    let text = text_in(list, place)?;
    match Word::new(alloc, text) {
        Ok(word) => Ok(word),
        Err(WordFault::BadWord) => Err(Unread::Shape),
        Err(WordFault::OutOfMemory) => Err(Unread::Memory),
    }
}
