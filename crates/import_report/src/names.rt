//! The names of the nodes in the script.
ghost use Rattle.std.specs.Prelude.{◌≡◌, ◌≢◌, ◌++◌, ◌∷◌, ◌<◌, ◌≤◌, [], IfOk, OnOk, length, map, take};
ghost use Rattle.dots_core.specs.Names.{most_names};
ghost use Rattle.grammar_core.specs.Grammar.{unreserved};
ghost use Rattle.report_core.specs.Rows.{name_at};
ghost use Rattle.import_report.specs.Names.{AreNames, numbered_names, shown_names};

use bench_core::{Names, NamesFault, TextSet};
use dots_core::Oom;
use grammar_core::{unreserved, words_of};
use std::alloc::Allocator;

/// The nodes' names, by number, in a script that can't have the own names of all of them; spaces divide the names.
pub const NUMBERED: &str =
    "n0 n1 n2 n3 n4 n5 n6 n7 n8 n9 n10 n11 n12 n13 n14 n15 n16 n17 n18 n19 n20 n21 n22 n23 n24 n25 n26 n27 n28 n29 n30 n31";

/// The text with this number; empty if there is none.
pub(crate) fn text_at<A: Allocator>(texts: &TextSet<A>, number: usize) -> &str
    ensures { result.now ≡ name_at texts.now number }
{
    match texts.text(number) {
        Some(text) => text,
        None => "",
    }
}

/// Adds the text to `words`, as `unreserved` gives it.
fn add_word<'t, A: Allocator>(words: &mut Vec<&'t str, A>, text: &'t str) -> Result<(), Oom>
    ensures { OnOk result (map (λ word. word.now) words.new.items ≡ map (λ word. word.now) words.old.items ++ unreserved text.now ∷ []) }
{
    words.push(unreserved(text))?;
    Ok(())
}

/// The texts as words of a `nodes` line, each as `unreserved` gives it.
fn texts_as_words<'t, A: Allocator + Copy>(
    alloc: A,
    texts: &'t TextSet<A>,
) -> Result<Vec<&'t str, A>, Oom>
    ensures { IfOk result (λ words. map (λ word. word.now) words.items ≡ map unreserved texts.now) }
{
    let mut words = Vec::new(alloc);
    for number in 0..texts.len() {
        add_word(&mut words, text_at(texts, number))?;
    }
    Ok(words)
}

/// The first `count` words; there must be at least `count`.
fn first_words<'s, 't>(words: &'s [&'t str], count: usize) -> &'s [&'t str]
    requires { count ≤ length words.now }
    ensures { result.now ≡ take count words.now }
{
    &words[..count]
}

/// The names `n0`, `n1` and so on, `count` of them; `count` is 1 to 32.
fn numbered_names<A: Allocator + Copy>(alloc: A, count: usize) -> Result<Names<A>, Oom>
    requires some { 0 < count }
    requires few { count ≤ most_names }
    ensures names { IfOk result (λ names. names ≡ numbered_names count) }
    ensures nodes { IfOk result (λ names. AreNames names) }
    ensures count { IfOk result (λ names. length names ≡ count) }
{
    let words = words_of(alloc, NUMBERED)?;
    match Names::new(alloc, first_words(&words, count)) {
        Ok(names) => {
            // form: hands out what the value keeps
            names.names_law();
            Ok(names)
        }
        Err(_) => Err(Oom),
    }
}

/// The names `n0`, `n1` and so on, `count` of them, for nodes whose own names were refused with `fault`; `Oom` if that
/// fault is `OutOfMemory`.
fn or_numbered<A: Allocator + Copy>(
    alloc: A,
    fault: NamesFault,
    count: usize,
) -> Result<Names<A>, Oom>
    requires some { 0 < count }
    requires few { count ≤ most_names }
    ensures names { IfOk result (λ names. (fault ≢ NamesFault.OutOfMemory) × (names ≡ numbered_names count)) }
    ensures nodes { IfOk result (λ names. AreNames names) }
    ensures count { IfOk result (λ names. length names ≡ count) }
{
    if fault == NamesFault::OutOfMemory {
        return Err(Oom);
    }
    numbered_names(alloc, count)
}

/// The names of the nodes in the script: their own, if a `nodes` line can have all of them, and otherwise `n0`, `n1`
/// and so on. There must be 1 to 32 nodes.
pub fn shown_names<A: Allocator + Copy>(alloc: A, nodes: &TextSet<A>) -> Result<Names<A>, Oom>
    requires some { 0 < length nodes.now }
    requires few { length nodes.now ≤ most_names }
    ensures names { IfOk result (λ names. names ≡ shown_names nodes.now) }
    ensures nodes { IfOk result (λ names. AreNames names) }
    ensures count { IfOk result (λ names. length names ≡ length nodes.now) }
{
    let words = texts_as_words(alloc, nodes)?;
    match Names::new(alloc, &words) {
        Ok(names) => {
            // form: hands out what the value keeps
            names.names_law();
            Ok(names)
        }
        Err(fault) => or_numbered(alloc, fault, nodes.len()),
    }
}
