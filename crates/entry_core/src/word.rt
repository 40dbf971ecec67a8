//! `Word`, the text of a topic, a key or metadata. A text of up to 14 bytes is stored inline, and copies share a longer
//! one.
ghost use Rattle.std.specs.Prelude.{◌≡◌, ◌↔◌, ◌≤◌, Err, false, length, refl, take, IfOk, IsTrue, Some};
ghost use Rattle.std.specs.Cmp.{partial_equiv_from_equiv};
ghost use Rattle.std.specs.Cmp.Lexicographic.{slice_cmp, nat_list_cmp_total, nat_list_eq_equiv, texts_po, texts_ties};
ghost use Rattle.std.specs.List.{list_all};
ghost use Rattle.std.specs.Ordering.{nat_cmp};
ghost use Rattle.std.specs.Str.{bytes_eq};
ghost use Rattle.entry_core.specs.Results.{GivesUnless};
ghost use Rattle.entry_core.specs.Words.{is_word, is_word_byte, word_of};
ghost use Rattle.entry_core.specs.Short.{IsShortText};
ghost use Rattle.entry_core.specs.declared.word.WordFault.TheVariants.{OutOfMemory};

use dots_core::Oom;
use std::alloc::Allocator;
use std::cmp::Ordering;
use std::marker::Model;
use std::str;
use std::sync::ArcStr;
use thiserror::Error;

/// The length of the longest words that are stored inline, in bytes.
const SHORT: usize = 14;

/// The length of the longest words, in bytes.
pub const LONGEST_WORD: usize = 200;

/// Why no `Word` was made of a text.
#[derive(Clone, Copy, Debug, PartialEq, Eq, Error)]
pub enum WordFault {
    /// The text is empty, longer than 200 bytes, or has a byte below 0x21 or above 0x7E.
    #[error("BadWord")]
    BadWord,
    /// Memory was refused.
    #[error("OutOfMemory")]
    OutOfMemory,
}

impl From<Oom> for WordFault {
    ghost from_gives = { λ _ fault. fault ≡ OutOfMemory };

    fn from(_oom: Oom) -> WordFault {
        WordFault::OutOfMemory
    }
}

/// A text of at most `SHORT` bytes.
#[derive(Clone, Copy, Debug)]
pub struct ShortText {
    len: u8,
    bytes: [u8; 14],
}

/// The text of a word, inline or shared.
#[derive(Debug, Drop)]
pub enum Text<A: Allocator> {
    Short(ShortText),
    Long(ArcStr<A>),
}

/// 1 to 200 bytes, each 0x21 to 0x7E. A contract sees the bytes. Copies of a word of more than 14 bytes share its
/// bytes.
#[derive(Debug, Drop)]
pub struct Word<A: Allocator> {
    text: Text<A>,
}

impl<A: Allocator> Model for Word<A> {
    ghost use Rattle.std.specs.Prelude.{ℕ, List, IsTrue};

    ghost Value = { List ℕ };

    ghost use Rattle.entry_core.specs.Words.{is_word};
    ghost use Rattle.entry_core.specs.Texts.{text_bytes, IsPlaced};

    ghost view = { λ w. text_bytes w.text };

    ghost invariant = { λ w. IsPlaced w.text × IsTrue (is_word (text_bytes w.text)) };
}

/// Whether each of the bytes may stand in a word.
fn has_word_bytes(bytes: &[u8]) -> bool
    ensures { result ≡ list_all is_word_byte bytes.now }
{
    bytes.iter().all(|byte| (0x21..=0x7e).contains(byte))
}

impl<A: Allocator> Word<A> {
    /// The word with this text. `BadWord` comes before any request for memory; only a text of more than 14 bytes needs
    /// one.
    pub fn new(alloc: A, text: &str) -> Result<Word<A>, WordFault>
    where
        A: Clone,
        ensures gives { GivesUnless OutOfMemory (λ word. word) result (word_of text.now) }
        ensures bad_word { is_word text.now ≡ false → result ≡ Err WordFault.BadWord }
    {
        if text.is_empty() || text.len() > LONGEST_WORD {
            return Err(WordFault::BadWord);
        }
        if !has_word_bytes(text.as_bytes()) {
            return Err(WordFault::BadWord);
        }
        if text.len() <= SHORT {
            let text = Text::Short(in_place(text.as_bytes()));
            return Ok(Word { text });
        }
        let text = Text::Long(ArcStr::from_str(alloc, text)?);
        Ok(Word { text })
    }

    /// The text of the word, which may be inline or shared; nothing is copied.
    pub fn as_str(&self) -> &str
        ensures text { result.now ≡ self.now }
        ensures word { IsTrue (is_word self.now) }
    {
        match &self.text {
            Text::Short(short) => {
                let all: &[u8] = &short.bytes;
                // the bytes are ASCII, and so UTF-8
                unsafe { str::from_utf8_unchecked(&all[..usize::from(short.len)]) }
            }
            Text::Long(text) => text.as_str(),
        }
    }

    /// Whether the two words have the same bytes. It takes no memory.
    pub fn same(&self, other: &Word<A>) -> bool
        ensures { IsTrue result ↔ (self.now ≡ other.now) }
    {
        self.as_str() == other.as_str()
    }

    /// The word `-`, a placeholder until an entry has its own word. It takes no memory.
    pub(crate) fn dash() -> Word<A>
        ensures { IsShortText result }
    {
        let bytes = [b'-'; 14];
        Word {
            text: Text::Short(ShortText { len: 1, bytes }),
        }
    }

    /// Whether the word is stored inline, as each word of up to 14 bytes is.
    pub fn is_short(&self) -> bool
        ensures { IsTrue result ↔ IsShortText self.now }
    {
        match &self.text {
            Text::Short(_) => true,
            Text::Long(_) => false,
        }
    }

    /// A copy of a word that is stored inline. It takes no memory, so it can't be refused.
    pub fn copy_short(&self) -> Word<A>
        requires { IsShortText self.now }
        ensures { result ≡ self.now }
    {
        match &self.text {
            Text::Short(short) => Word {
                text: Text::Short(*short),
            },
            Text::Long(_) => unreachable!(),
        }
    }

    /// A copy of the word. A word of more than 14 bytes shares its bytes with the copy. It takes no memory; an `Err`
    /// means that the count of the copies that share these bytes is at its limit.
    pub fn try_copy(&self) -> Result<Word<A>, Oom>
        ensures { IfOk result (λ copy. copy ≡ self.now) }
    {
        match &self.text {
            Text::Short(short) => Ok(Word {
                text: Text::Short(*short),
            }),
            Text::Long(text) => {
                let text = Text::Long(text.clone()?);
                Ok(Word { text })
            }
        }
    }
}

impl<A: Allocator> PartialEq for Word<A> {
    ghost eq = { bytes_eq };

    ghost laws = { partial_equiv_from_equiv nat_list_eq_equiv };

    fn eq(&self, other: &Self) -> bool {
        self.same(other)
    }
}

impl<A: Allocator> Eq for Word<A> {
    ghost laws = { nat_list_eq_equiv };
}

impl<A: Allocator> PartialOrd for Word<A> {
    ghost partial_cmp = { λ one other. Some (slice_cmp nat_cmp one other) };

    ghost laws = { texts_po };

    fn partial_cmp(&self, other: &Self) -> Option<Ordering> {
        Some(self.cmp(other))
    }
}

/// Ordered by bytes.
impl<A: Allocator> Ord for Word<A> {
    ghost cmp = { slice_cmp nat_cmp };

    ghost total = { nat_list_cmp_total };

    ghost matches_partial_cmp = { λ one other. refl };

    ghost matches_eq = { texts_ties };

    fn cmp(&self, other: &Self) -> Ordering {
        self.as_str().cmp(other.as_str())
    }
}

/// These bytes, at most 14, as a text that is stored inline.
fn in_place(text: &[u8]) -> ShortText
    requires { length text.now ≤ 14 }
    ensures text { take result.len result.bytes ≡ text.now }
    ensures len { result.len ≤ 14 }
{
    let mut bytes = [0; 14];
    bytes[..text.len()].copy_from_slice(text);
    ShortText {
        len: text.len() as u8,
        bytes,
    }
}
