//! `Names`: the names of the nodes, with their numbers.
ghost use Rattle.std.specs.Prelude.{◌≡◌, ◌↔◌, ◌⊎◌, ◌<◌, ◌≤◌, Err, Ok, length, map, slice_get, option_copied, IsTrue, IfOk};
ghost use Rattle.std.specs.List.{list_all};
ghost use Rattle.dots_core.specs.Names.{most_names};
ghost use Rattle.payload_core.specs.Results.{GivesUnless};
ghost use Rattle.bench_core.specs.NameText.{is_name, is_name_byte};
ghost use Rattle.bench_core.specs.NameList.{names_of, with_name, with_names, number_in};

use crate::names_fault::NamesFault;
use crate::texts::TextSet;
use dots_core::{MOST_NAMES, Oom};
use std::alloc::Allocator;
use std::marker::Model;

fn is_name_byte(byte: u8) -> bool
    ensures { result ≡ is_name_byte byte }
{
    matches!(byte, b'a'..=b'z' | b'0'..=b'9' | b'_')
}

fn has_name_bytes(bytes: &[u8]) -> bool
    ensures { result ≡ list_all is_name_byte bytes.now }
{
    bytes.iter().all(|byte| is_name_byte(*byte))
}

/// The length of the longest names, in bytes.
pub const LONGEST_NAME: usize = 16;

/// Whether the text may be a name: 1 to `LONGEST_NAME` bytes of `a-z0-9_`.
pub fn is_name(text: &str) -> bool
    ensures { result ≡ is_name text.now }
{
    if text.is_empty() || text.len() > LONGEST_NAME {
        return false;
    }
    has_name_bytes(text.as_bytes())
}

/// Adds `text` to `names`. `BadName` if `text` isn't a name, and `Twice` if `names` has it already; either fault tells
/// the place of `text`, counted from 1.
fn add_name<A: Allocator + Copy>(names: &mut TextSet<A>, text: &str) -> Result<(), NamesFault>
    ensures { GivesUnless NamesFault.OutOfMemory (λ _. names.new) result (with_name names.old text.now) }
{
    let at = names.len() + 1;
    if !is_name(text) {
        return Err(NamesFault::BadName { at });
    }
    if !names.insert(text)? {
        return Err(NamesFault::Twice { at });
    }
    Ok(())
}

/// Adds these texts to `names` in turn, up to the first fault.
fn add_names<A: Allocator + Copy>(names: &mut TextSet<A>, texts: &[&str]) -> Result<(), NamesFault>
    ensures { GivesUnless NamesFault.OutOfMemory (λ _. names.new) result (with_names names.old (map (λ text. text.now) texts.now)) }
{
    for text in texts {
        add_name(names, text)?;
    }
    Ok(())
}

/// 1 to 32 different names, each of 1 to 16 bytes of `a-z0-9_`, numbered from 0 in their order.
#[derive(Drop)]
pub struct Names<A: Allocator> {
    texts: TextSet<A>,
}

impl<A: Allocator> Model for Names<A> {
    ghost use Rattle.std.specs.Prelude.{ℕ, List, ◌≡◌, Ok};
    ghost use Rattle.bench_core.specs.NameList.{names_of};

    ghost Value = { List (List ℕ) };

    ghost view = { λ n. n.texts };

    ghost invariant = { λ n. names_of n.texts ≡ Ok n.texts };
}

impl<A: Allocator> Names<A> {
    /// How many names there are: 1 to 32.
    pub fn len(&self) -> usize
        ensures len { result ≡ length self.now }
        ensures some { 1 ≤ result }
        ensures few { result ≤ most_names }
    {
        self.texts.len()
    }

    /// The number of a name, counted from 0; `None` if the text isn't one of the names.
    pub fn number_of(&self, text: &str) -> Option<u16>
        ensures { result ≡ number_in self.now text.now }
    {
        let number = self.texts.number_of(text)?;
        Some(number as u16)
    }

    /// The name with this number, counted from 0; `None` if there is none.
    pub fn text(&self, number: u16) -> Option<&str>
        ensures { option_copied result ≡ slice_get self.now number }
    {
        self.texts.text(number as usize)
    }

    /// Does nothing. Its contract says what each `Names` keeps.
    pub fn names_law(&self)
        ensures { names_of self.now ≡ Ok self.now }
    {
        // form: the proof reads the field here
        let _ = &self.texts;
    }

    /// Whether both have the same names in the same order.
    pub fn same(&self, other: &Names<A>) -> bool
        ensures { IsTrue result ↔ (self.now ≡ other.now) }
    {
        self.texts.same(&other.texts)
    }
}

impl<A: Allocator + Copy> Names<A> {
    /// The texts as names, in their order, or the first fault. `new` looks first at how many texts there are, and then
    /// at each text in turn: whether it is a name, and then whether it is new.
    pub fn new(alloc: A, texts: &[&str]) -> Result<Names<A>, NamesFault>
        ensures gives { GivesUnless NamesFault.OutOfMemory (λ names. names) result (names_of (map (λ text. text.now) texts.now)) }
        ensures texts { IfOk result (λ names. names ≡ map (λ text. text.now) texts.now) }
        ensures wrong_count { (result ≡ Err NamesFault.WrongCount) ↔ ((length texts.now ≡ 0) ⊎ (most_names < length texts.now)) }
    {
        if texts.is_empty() || texts.len() > usize::from(MOST_NAMES) {
            return Err(NamesFault::WrongCount);
        }
        let mut names = TextSet::new(alloc);
        add_names(&mut names, texts)?;
        Ok(Names { texts: names })
    }

    /// A copy of the names, in the same order.
    pub fn try_copy(&self) -> Result<Names<A>, Oom>
        ensures { IfOk result (λ copy. copy ≡ self.now) }
    {
        Ok(Names {
            texts: self.texts.try_copy()?,
        })
    }
}
