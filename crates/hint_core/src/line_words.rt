//! The words of the refused line, and the names that the lines before it give. The lines before it are the first
//! `count` lines of `bytes`.
ghost use Rattle.std.specs.Prelude.{◌≡◌, ◌||◌, [], map, drop, take, option_copied, None, Some, if◌then◌else◌};
ghost use Rattle.std.specs.List.{list_any};
ghost use Rattle.std.specs.Str.{bytes_eq};
ghost use Rattle.grammar_core.specs.Words.{lines_of, is_text};
ghost use Rattle.hint_core.specs.LineWords.{few_words, word_at, names, begins, is_begun, is_node, is_console, first_again};

use arrayvec::ArrayVec;

/// The most words of a line of a script: those of an extract of 32 names.
const MOST: usize = 34;

/// Whether each byte is from 0x20 to 0x7E.
fn is_text(line: &[u8]) -> bool
    ensures { result ≡ is_text line.now }
{
    line.iter().all(|byte| (0x20..=0x7e).contains(byte))
}

/// The line as text; `None` if a byte of it is outside 0x20 to 0x7E.
pub(crate) fn text_of(line: &[u8]) -> Option<&str>
    ensures { option_copied result ≡ (if is_text line.now then Some line.now else None) }
{
    if !is_text(line) {
        return None;
    }
    match str::from_utf8(line) {
        Ok(text) => Some(text),
        Err(_) => None,
    }
}

/// The words of a line, up to the 34th; none if the line isn't text.
pub(crate) fn few_words(line: &[u8]) -> ArrayVec<&str, MOST>
    ensures { map (λ word. word.now) result.items ≡ few_words line.now }
{
    let mut words = ArrayVec::new();
    let Some(text) = text_of(line) else {
        return words;
    };
    for word in text.split(' ').filter(|word| !word.is_empty()).take(MOST) {
        words.push(word);
    }
    words
}

/// The word at `place`, counted from 0; empty if there is none.
pub(crate) fn word_at<'l>(words: &[&'l str], place: usize) -> &'l str
    ensures { result.now ≡ word_at (map (λ word. word.now) words.now) place }
{
    match words.get(place) {
        Some(word) => word,
        None => "",
    }
}

/// The words behind the first `count`; none if there are no more.
pub(crate) fn behind<'w, 'l>(words: &'w [&'l str], count: usize) -> &'w [&'l str]
    ensures { map (λ word. word.now) result.now ≡ drop count (map (λ word. word.now) words.now) }
{
    if count <= words.len() {
        &words[count..]
    } else {
        &[]
    }
}

fn has_word(words: &[&str], word: &str) -> bool
    ensures { result ≡ list_any (bytes_eq word.now) (map (λ word. word.now) words.now) }
{
    // form: the proof goes along the loop
    for other in words {
        if word == *other {
            return true;
        }
    }
    false
}

/// Whether the line begins with `keyword`, and has `word` among the words behind that.
#[tactic(auto, unfolding(crate::specs::LineWords::names))]
fn names(line: &[u8], keyword: &str, word: &str) -> bool
    ensures { result ≡ names keyword.now word.now line.now }
{
    let words = few_words(line);
    match words.as_slice() {
        [first, rest @ ..] => *first == keyword && has_word(rest, word),
        [] => false,
    }
}

/// Whether the line's first word is `keyword`.
#[tactic(auto, unfolding(crate::specs::LineWords::begins))]
fn begins(line: &[u8], keyword: &str) -> bool
    ensures { result ≡ begins keyword.now line.now }
{
    let words = few_words(line);
    word_at(words.as_slice(), 0) == keyword
}

/// Whether one of the first `count` lines begins with the keyword.
pub(crate) fn is_begun(bytes: &[u8], count: usize, keyword: &str) -> bool
    ensures { result ≡ is_begun keyword.now (take count (lines_of bytes.now)) }
{
    bytes
        .split(|byte| *byte == b'\n')
        .take(count)
        .any(|line| begins(line, keyword))
}

/// Whether one of the first `count` lines begins with `keyword`, and has `word` among the words behind that.
fn is_named(bytes: &[u8], count: usize, keyword: &str, word: &str) -> bool
    ensures { result ≡ list_any (names keyword.now word.now) (take count (lines_of bytes.now)) }
{
    bytes
        .split(|byte| *byte == b'\n')
        .take(count)
        .any(|line| names(line, keyword, word))
}

/// Whether one of the first `count` lines gives the name `word` to a node.
pub(crate) fn is_node(bytes: &[u8], count: usize, word: &str) -> bool
    ensures { result ≡ is_node (take count (lines_of bytes.now)) word.now }
{
    is_named(bytes, count, "nodes", word)
}

/// Whether one of the first `count` lines gives the name `word` to a console.
pub(crate) fn is_console(bytes: &[u8], count: usize, word: &str) -> bool
    ensures { result ≡ is_console (take count (lines_of bytes.now)) word.now }
{
    is_named(bytes, count, "consoles", word)
}

/// The first of `words` that the first `count` lines give to a node as its name, or that equals an earlier one of
/// `words`; empty if there is none.
#[tactic(auto, unfolding(crate::specs::LineWords::first_again))]
pub(crate) fn first_again<'l>(bytes: &[u8], count: usize, words: &[&'l str]) -> &'l str
    ensures { result.now ≡ first_again (take count (lines_of bytes.now)) [] (map (λ word. word.now) words.now) }
{
    for (at, word) in words.iter().enumerate() {
        if is_node(bytes, count, word) || has_word(&words[..at], word) {
            return word;
        }
    }
    ""
}
