//! The hints about names. Where there is no word to show there is no hint (`None`).
ghost use Rattle.std.specs.Prelude.{◌≡◌, option_map, not, map, find, take, [], unwrap_or};
ghost use Rattle.bench_core.specs.NameText.{is_name_byte};
ghost use Rattle.grammar_core.specs.Words.{lines_of};
ghost use Rattle.hint_core.specs.Hints.{plain_hint};
ghost use Rattle.hint_core.specs.LineWords.{is_node};
ghost use Rattle.hint_core.specs.Choices.{names_actors, again, twice, letter_from, no_name_hint, is_given_name, name_place, bad_name};

use crate::hint::{Hint, about};
use crate::line_words::{behind, first_again, is_begun, is_node, word_at};
use crate::words_hint::is_reserved;
use bench_core::{LONGEST_NAME, is_name};

/// Whether a line with this first word names nodes or consoles.
fn names_actors(first: &str) -> bool
    ensures { result ≡ names_actors first.now }
{
    first == "nodes" || first == "consoles"
}

/// The hint for a name that stands a second time; `None` if `word` is empty.
fn again<'l>(word: &'l str) -> Option<Hint<'l>>
    ensures { option_map plain_hint result ≡ again word.now }
{
    about("", word, " was named before; each name stands once")
}

/// The hint for a second line `nodes` or `consoles`, for a name that was given before, or for a name that an extract
/// has twice. `words` are those of the line, which stands behind the first `count` lines.
#[tactic(auto, unfolding(crate::specs::Choices::twice))]
pub(crate) fn twice<'l>(bytes: &[u8], count: usize, words: &[&'l str]) -> Option<Hint<'l>>
    ensures { option_map plain_hint result ≡ twice (take count (lines_of bytes.now)) (map (λ word. word.now) words.now) }
{
    let first = word_at(words, 0);
    if !names_actors(first) {
        return again(first_again(bytes, 0, behind(words, 2)));
    }
    if is_begun(bytes, count, first) {
        return about(
            "a line ",
            first,
            " stands before this one, and names them all",
        );
    }
    again(first_again(bytes, count, behind(words, 1)))
}

fn is_name_byte(byte: u8) -> bool
    ensures { result ≡ is_name_byte byte }
{
    matches!(byte, b'a'..=b'z' | b'0'..=b'9' | b'_')
}

/// The hint for the first byte of `word` that a name can't have; `None` if there is no such byte.
fn letter_hint<'l>(word: &'l str) -> Option<Hint<'l>>
    ensures { option_map plain_hint result ≡ letter_from word.now 1 word.now }
{
    let bytes = word.as_bytes();
    for (at, byte) in bytes.iter().enumerate() {
        if !is_name_byte(*byte) {
            return Some(Hint::Letter {
                word,
                place: at + 1,
            });
        }
    }
    None
}

/// Why a word can't be a name; `None` if it can, or is empty.
#[tactic(auto, unfolding(crate::specs::Choices::no_name_hint))]
fn no_name_hint<'l>(word: &'l str) -> Option<Hint<'l>>
    ensures { option_map plain_hint result ≡ no_name_hint word.now }
{
    if is_reserved(word) {
        return about("", word, " is a word of the language, and no name");
    }
    if word.len() > LONGEST_NAME {
        return about(
            "",
            word,
            " is too long; a name has 1 to 16 bytes of a-z, 0-9 and _",
        );
    }
    letter_hint(word)
}

/// The first of the words that can't be given as a name; empty if each can.
fn no_name<'l>(words: &[&'l str]) -> &'l str
    ensures { result.now ≡ unwrap_or (find (λ word. not (is_given_name word)) (map (λ word. word.now) words.now)) [] }
{
    // form: the proof goes along the loop
    for word in words {
        if !is_name(word) || is_reserved(word) {
            return word;
        }
    }
    ""
}

/// The first of the words that isn't the name of a node in the first `count` lines; empty if each is.
fn no_node<'l>(bytes: &[u8], count: usize, words: &[&'l str]) -> &'l str
    ensures { result.now ≡ unwrap_or (find (λ word. not (is_node (take count (lines_of bytes.now)) word)) (map (λ word. word.now) words.now)) [] }
{
    // form: the proof goes along the loop
    for word in words {
        if !is_node(bytes, count, word) {
            return word;
        }
    }
    ""
}

/// In a line whose first word is `first`, the place, counted from 0, of the first word that should name a node: 1 if
/// `first` is reserved, and else 2, behind an actor's verb.
fn name_place(first: &str) -> usize
    ensures { result ≡ name_place first.now }
{
    if is_reserved(first) { 1 } else { 2 }
}

/// The hint for a word that should be a name and isn't one, or that should name a node and doesn't. `words` are those
/// of the line, which stands behind the first `count` lines.
#[tactic(auto, unfolding(crate::specs::Choices::bad_name))]
pub(crate) fn bad_name<'l>(bytes: &[u8], count: usize, words: &[&'l str]) -> Option<Hint<'l>>
    ensures { option_map plain_hint result ≡ bad_name (take count (lines_of bytes.now)) (map (λ word. word.now) words.now) }
{
    let first = word_at(words, 0);
    if names_actors(first) {
        return no_name_hint(no_name(behind(words, 1)));
    }
    let named = behind(words, name_place(first));
    about(
        "no node is named ",
        no_node(bytes, count, named),
        "; the line `nodes` names them all",
    )
}
