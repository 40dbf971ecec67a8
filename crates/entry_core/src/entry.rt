//! `Entry`, a presence with its dot.
ghost use Rattle.std.specs.Prelude.{◌≡◌, ◌↔◌, IfOk, IsTrue};
ghost use Rattle.entry_core.specs.Presences.{entry_of, is_tracked_as, presence_of};
ghost use Rattle.entry_core.specs.Short.{IsShort};

use crate::word::Word;
use dots_core::{Dot, Oom};
use std::alloc::Allocator;
use std::marker::Model;

/// A process, a topic, a key and metadata, at the dot of the join or update that added them.
#[derive(Debug, Drop)]
pub struct Entry<A: Allocator> {
    pub dot: Dot,
    pub pid: u64,
    /// The topic, the key and the metadata.
    // form: an array, as a loan compares each part of a type
    words: [Word<A>; 3],
}

impl<A: Allocator> Model for Entry<A> {
    ghost use Rattle.std.specs.Prelude.{[], slice_index_or};
    ghost use Rattle.entry_core.specs.Presences.{Entry};

    ghost Value = { Entry };

    ghost view = { λ e. record { dot = e.dot; pid = e.pid; topic = slice_index_or e.words 0 []; key = slice_index_or e.words 1 []; metadata = slice_index_or e.words 2 [] } };
}

impl<A: Allocator> Entry<A> {
    /// An entry of this process under this topic and key, with this metadata, at the dot.
    pub fn new(dot: Dot, pid: u64, topic: Word<A>, key: Word<A>, metadata: Word<A>) -> Entry<A>
        ensures { result ≡ entry_of dot (record { pid = pid; topic = topic; key = key; metadata = metadata }) }
    {
        Entry {
            dot,
            pid,
            words: [topic, key, metadata],
        }
    }

    /// The topic under which the process is tracked.
    pub fn topic(&self) -> &Word<A>
        ensures { result.now ≡ self.now.topic }
    {
        &self.words[0]
    }

    /// The key under which the process is tracked.
    pub fn key(&self) -> &Word<A>
        ensures { result.now ≡ self.now.key }
    {
        &self.words[1]
    }

    /// What the process told of itself as it joined or updated.
    pub fn metadata(&self) -> &Word<A>
        ensures { result.now ≡ self.now.metadata }
    {
        &self.words[2]
    }

    /// Whether the two entries are equal in each field. It takes no memory.
    pub fn same(&self, other: &Entry<A>) -> bool
        ensures { IsTrue result ↔ (self.now ≡ other.now) }
    {
        self.dot == other.dot
            && self.pid == other.pid
            && self.topic().same(other.topic())
            && self.key().same(other.key())
            && self.metadata().same(other.metadata())
    }

    /// Whether the entry tracks this process under this topic and key.
    pub fn is_tracked_as(&self, pid: u64, topic: &Word<A>, key: &Word<A>) -> bool
        ensures { result ≡ is_tracked_as pid topic.now key.now (presence_of self.now) }
    {
        self.pid == pid && *self.topic() == *topic && *self.key() == *key
    }

    /// A placeholder, for a box whose entry comes later. It takes no memory.
    pub(crate) fn filler() -> Entry<A>
        ensures { IsShort result }
    {
        let dot = Dot { name: 0, clock: 0 };
        Entry::new(dot, 0, Word::dash(), Word::dash(), Word::dash())
    }

    /// Whether the entry's words are all stored inline.
    pub fn is_short(&self) -> bool
        ensures { IsTrue result ↔ IsShort self.now }
    {
        self.topic().is_short() && self.key().is_short() && self.metadata().is_short()
    }

    /// A copy of an entry whose words are all stored inline. It takes no memory, so it can't be refused.
    pub fn copy_short(&self) -> Entry<A>
        requires { IsShort self.now }
        ensures { result ≡ self.now }
    {
        Entry::new(
            self.dot,
            self.pid,
            self.topic().copy_short(),
            self.key().copy_short(),
            self.metadata().copy_short(),
        )
    }

    /// A copy of the entry. The copy shares the words that aren't stored inline. It takes no memory; an `Err` means
    /// that the count of a word's copies is at its limit.
    pub fn try_copy(&self) -> Result<Entry<A>, Oom>
        ensures { IfOk result (λ copy. copy ≡ self.now) }
    {
        let topic = self.topic().try_copy()?;
        let key = self.key().try_copy()?;
        let metadata = self.metadata().try_copy()?;
        Ok(Entry::new(self.dot, self.pid, topic, key, metadata))
    }
}
