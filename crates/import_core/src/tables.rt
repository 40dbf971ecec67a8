//! `Tables`: which number stands for which text.
ghost use Rattle.std.specs.Prelude.{◌≡◌, ◌<◌, ◌∷◌, [], Err, IfOk, OnOk, length, string_bytes};
ghost use Rattle.serde_json.specs.View.{view};
ghost use Rattle.dots_core.specs.Names.{most_names};
ghost use Rattle.import_core.specs.Tables.{IsWordOf, IsNumberOf, IsNodeOf, IsMessageOf, Extends, Keeps, all_of, no_tables, message_text};
ghost use Rattle.import_core.specs.Seen.{with_text};
ghost use Rattle.import_core.specs.Sights.{SeesPid, SeesValues, SeesWord};

use crate::note_fault::NoteFault;
use crate::numbering::numbered;
use crate::texts::{spelling_of, text_of};
use bench_core::TextSet;
use dots_core::{MOST_NAMES, Oom};
use payload_core::{LONGEST_WORD, Word};
use serde_json::Value;
use spelling_core::word_of;
use std::alloc::{Allocator, Global};

/// The texts of nodes, of processes, of messages with their senders, and of the values whose words are cut. Each text
/// has a number among those of its kind, counted from 0 in the order of first sight.
#[derive(Drop)]
pub struct Tables<A: Allocator> {
    pub nodes: TextSet<A>,
    pub pids: TextSet<A>,
    pub messages: TextSet<A>,
    pub longs: TextSet<A>,
}

/// The number of a value's text among `texts`. A new text gets the next number.
fn number_in<A: Allocator + Copy>(
    heap: Global,
    texts: &mut TextSet<A>,
    value: &Value,
) -> Result<u64, Oom>
    ensures number { IfOk result (λ n. IsNumberOf texts.new (view value.now) n) }
    ensures sees { OnOk result (SeesPid texts.old (view value.now) texts.new) }
    ensures extends { Extends texts.old texts.new }
{
    let text = text_of(heap, value)?;
    Ok(numbered(texts, &text)? as u64)
}

/// The word of a value. If the word must be cut, a new value gets the next number among `longs`.
fn word_in<A: Allocator + Copy>(
    heap: Global,
    alloc: A,
    longs: &mut TextSet<A>,
    value: &Value,
) -> Result<Word<A>, Oom>
    ensures word { IfOk result (λ word. IsWordOf longs.new (view value.now) word) }
    ensures sees { OnOk result (SeesWord longs.old (view value.now) longs.new) }
    ensures extends { Extends longs.old longs.new }
{
    let spelling = spelling_of(heap, value)?;
    let number = if spelling.len() > LONGEST_WORD {
        number_in(heap, longs, value)?
    } else {
        0
    };
    word_of(alloc, &spelling, number)
}

/// The text by which a message is known: the number of its sender, and the text of its value.
fn message_text(heap: Global, sender: u16, text: &str) -> Result<String, Oom>
    ensures { IfOk result (λ s. string_bytes s ≡ message_text sender text.now) }
{
    let told = format!(in heap; "{sender} {text}")?;
    Ok(told)
}

impl<A: Allocator + Copy> Tables<A> {
    /// Empty tables: nothing has a number yet.
    pub(crate) fn new(alloc: A) -> Tables<A>
        ensures { all_of result ≡ no_tables }
    {
        Tables {
            nodes: TextSet::new(alloc),
            pids: TextSet::new(alloc),
            messages: TextSet::new(alloc),
            longs: TextSet::new(alloc),
        }
    }

    /// The word of a value as a topic, a key or metadata. A new value whose word must be cut gets the next number.
    pub(crate) fn word(&mut self, heap: Global, alloc: A, value: &Value) -> Result<Word<A>, Oom>
        ensures word { IfOk result (λ word. IsWordOf self.new.longs (view value.now) word) }
        ensures values { OnOk result (SeesValues (all_of self.old) (all_of self.new) [] (view value.now ∷ [])) }
        ensures same_nodes { self.new.nodes ≡ self.old.nodes }
        ensures extends { Keeps (all_of self.old) (all_of self.new) }
    {
        word_in(heap, alloc, &mut self.longs, value)
    }

    /// The number of a process. A process that wasn't seen before gets the next number.
    pub(crate) fn pid(&mut self, heap: Global, value: &Value) -> Result<u64, Oom>
        ensures pid { IfOk result (λ pid. IsNumberOf self.new.pids (view value.now) pid) }
        ensures values { OnOk result (SeesValues (all_of self.old) (all_of self.new) (view value.now ∷ []) []) }
        ensures same_nodes { self.new.nodes ≡ self.old.nodes }
        ensures extends { Keeps (all_of self.old) (all_of self.new) }
    {
        number_in(heap, &mut self.pids, value)
    }

    /// The number of the node with this name. A node that wasn't seen before gets the next number. `TooManyNodes` if
    /// the number is above 31; the name stays in the tables then, too.
    pub(crate) fn node(&mut self, name: &str) -> Result<u16, NoteFault>
        ensures node { IfOk result (λ node. IsNodeOf (all_of self.new) name.now node) }
        ensures few { IfOk result (λ node. node < most_names) }
        ensures seen { OnOk result (self.new.nodes ≡ with_text self.old.nodes name.now) }
        ensures values { OnOk result (SeesValues (all_of self.old) (all_of self.new) [] []) }
        ensures extends { Keeps (all_of self.old) (all_of self.new) }
        ensures many { result ≡ Err NoteFault.TooManyNodes → most_names < length (with_text self.old.nodes name.now) }
    {
        let number = numbered(&mut self.nodes, name)?;
        if number >= usize::from(MOST_NAMES) {
            return Err(NoteFault::TooManyNodes);
        }
        Ok(number as u16)
    }

    /// The number of this sender's message. A message that wasn't seen before gets the next number.
    pub(crate) fn message(&mut self, heap: Global, sender: u16, value: &Value) -> Result<usize, Oom>
        ensures message { IfOk result (λ message. IsMessageOf (all_of self.new) sender (view value.now) message) }
        ensures values { OnOk result (SeesValues (all_of self.old) (all_of self.new) [] []) }
        ensures same_nodes { self.new.nodes ≡ self.old.nodes }
        ensures extends { Keeps (all_of self.old) (all_of self.new) }
    {
        let text = text_of(heap, value)?;
        let told = message_text(heap, sender, &text)?;
        numbered(&mut self.messages, &told)
    }
}
