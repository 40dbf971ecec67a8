//! `TextSet`: a set of texts with their numbers. No other module of this crate names `indexmap`.
ghost use Rattle.std.specs.Prelude.{◌≡◌, ◌↔◌, [], ◌∷◌, ◌++◌, ◌<◌, ◌^◌, length, slice_get, option_copied, not, IsTrue, IfOk, OnErr, if◌then◌else◌};
ghost use Rattle.std.specs.List.{list_any};
ghost use Rattle.std.specs.Str.{bytes_eq};
ghost use Rattle.bench_core.specs.NameList.{number_in};

use dots_core::Oom;
use indexmap::IndexSet;
use std::alloc::Allocator;
use std::hash::{BuildHasherDefault, FoldHasher};
use std::marker::Model;

/// Texts in the order of their first inserts, numbered from 0.
#[derive(Drop)]
pub struct TextSet<A: Allocator> {
    texts: IndexSet<String<A>, BuildHasherDefault<FoldHasher>, A>,
}

impl<A: Allocator> Model for TextSet<A> {
    ghost use Rattle.std.specs.Prelude.{ℕ, List, map};
    ghost use Rattle.std.specs.String.{string_bytes};

    ghost Value = { List (List ℕ) };

    ghost view = { λ s. map string_bytes s.texts.keys };
}

impl<A: Allocator> TextSet<A> {
    /// How many texts there are.
    pub fn len(&self) -> usize
        ensures len { result ≡ length self.now }
        ensures small { result < 2 ^ 63 }
    {
        self.texts.len()
    }

    /// The number of a text, counted from 0; `None` if the text isn't in the set.
    pub fn number_of(&self, text: &str) -> Option<usize>
        ensures { result ≡ number_in self.now text.now }
    {
        self.texts.get_index_of(text)
    }

    /// The text with this number, counted from 0; `None` if there is none.
    pub fn text(&self, number: usize) -> Option<&str>
        ensures { option_copied result ≡ slice_get self.now number }
    {
        Some(self.texts.get_index(number)?.as_str())
    }

    /// Whether both have the same texts in the same order.
    pub fn same(&self, other: &TextSet<A>) -> bool
        ensures { IsTrue result ↔ (self.now ≡ other.now) }
    {
        self.texts.as_slice() == other.texts.as_slice()
    }
}

impl<A: Allocator + Copy> TextSet<A> {
    /// The empty set.
    pub fn new(alloc: A) -> TextSet<A>
        ensures { result ≡ [] }
    {
        TextSet {
            texts: IndexSet::new(alloc),
        }
    }

    /// Appends the text if it is new, and says whether it was. It copies the text first, so memory may be refused even
    /// for a text that is there already.
    pub fn insert(&mut self, text: &str) -> Result<bool, Oom>
        ensures added { IfOk result (λ new. new ≡ not (list_any (bytes_eq text.now) self.old)) }
        ensures texts { IfOk result (λ new. self.new ≡ (if new then self.old ++ text.now ∷ [] else self.old)) }
        ensures err { OnErr result (self.new ≡ self.old) }
    {
        let text = String::from_str(*self.texts.allocator(), text)?;
        Ok(self.texts.insert(text)?)
    }

    /// A copy of the set, with the texts in the same order.
    pub fn try_copy(&self) -> Result<TextSet<A>, Oom>
        ensures { IfOk result (λ copy. copy ≡ self.now) }
    {
        let texts = self.texts.clone()?;
        Ok(TextSet { texts })
    }
}
