//! The hints about the words of a line: what they should be, and how many. Where there is no word to show there is no
//! hint (`None`).
ghost use Rattle.std.specs.Prelude.{◌≡◌, option_map, map, take, is_some};
ghost use Rattle.grammar_core.specs.Words.{lines_of};
ghost use Rattle.hint_core.specs.Hints.{plain_hint};
ghost use Rattle.hint_core.specs.Choices.{no_nodes, is_console_verb, no_verb, is_for_step, nobody, unknown_word, wrong_count, not_allowed, number_place, bad_number, is_reserved};

use crate::forms::form;
use crate::hint::{Hint, about};
use crate::line_words::{is_begun, is_console, is_node, word_at};
use grammar_core::{keyword_of, verb_of};

/// Whether the word is one of the six reserved ones, which can't be names.
pub(crate) fn is_reserved(word: &str) -> bool
    ensures { result ≡ is_reserved word.now }
{
    keyword_of(word).is_some()
}

/// The hint for the first line that has words and isn't a comment, if that line doesn't begin with `nodes`.
#[tactic(auto, unfolding(crate::specs::Choices::no_nodes))]
pub(crate) fn no_nodes<'l>(words: &[&'l str]) -> Option<Hint<'l>>
    ensures { option_map plain_hint result ≡ no_nodes (map (λ word. word.now) words.now) }
{
    about(
        "the first line is `nodes NAME ..`, and not ",
        word_at(words, 0),
        " ..",
    )
}

/// Whether a console may use the verb.
fn is_console_verb(verb: &str) -> bool
    ensures { result ≡ is_console_verb verb.now }
{
    verb == "undo" || verb == "back" || verb == "unwind"
}

/// The hint for an actor's line whose second word isn't a verb.
#[tactic(auto, unfolding(crate::specs::Choices::no_verb))]
fn no_verb<'l>(word: &'l str) -> Option<Hint<'l>>
    ensures { option_map plain_hint result ≡ no_verb word.now }
{
    if is_reserved(word) {
        return about("", word, " stands first in its line; nobody acts there");
    }
    about(
        "",
        word,
        " is no verb; `presence_bench --help` has them all",
    )
}

/// Whether a line of the prompt begins with this word.
fn is_for_step(word: &str) -> bool
    ensures { result ≡ is_for_step word.now }
{
    word.starts_with(':')
}

/// The hint for a line whose first word names nobody. `has_consoles` says whether a line before it names consoles.
#[tactic(auto, unfolding(crate::specs::Choices::nobody))]
fn nobody<'l>(has_consoles: bool, first: &'l str, verb: &str) -> Option<Hint<'l>>
    ensures { option_map plain_hint result ≡ nobody has_consoles first.now verb.now }
{
    if verb_of(first).is_some() {
        return about(
            "who acts stands first in a line, and ",
            first,
            " behind that",
        );
    }
    if is_for_step(first) {
        return about(
            "",
            first,
            " is for `step`; a script has no lines that begin with `:`",
        );
    }
    if is_console_verb(verb) && !has_consoles {
        return about(
            "nobody is named ",
            first,
            "; a line `consoles NAME ..` names consoles",
        );
    }
    about(
        "nobody is named ",
        first,
        "; the line `nodes` names the nodes",
    )
}

/// The hint for a line whose first word names nobody, or whose second word isn't a verb. `words` are those of the line,
/// which stands behind the first `count` lines.
#[tactic(auto, unfolding(crate::specs::Choices::unknown_word))]
pub(crate) fn unknown_word<'l>(bytes: &[u8], count: usize, words: &[&'l str]) -> Option<Hint<'l>>
    ensures { option_map plain_hint result ≡ unknown_word (take count (lines_of bytes.now)) (map (λ word. word.now) words.now) }
{
    let first = word_at(words, 0);
    let verb = word_at(words, 1);
    if is_node(bytes, count, first) || is_console(bytes, count, first) {
        return no_verb(verb);
    }
    nobody(is_begun(bytes, count, "consoles"), first, verb)
}

/// The hint for a line with too few words, or too many: the form of the line.
#[tactic(auto, unfolding(crate::specs::Choices::wrong_count))]
pub(crate) fn wrong_count(words: &[&str]) -> Option<Hint<'static>>
    ensures { option_map plain_hint result ≡ wrong_count (map (λ word. word.now) words.now) }
{
    Some(Hint::Plain(form(word_at(words, 0), word_at(words, 1))))
}

/// The hint for a line that isn't an act where only acts are allowed, or for a console's line whose verb is for nodes.
#[tactic(auto, unfolding(crate::specs::Choices::not_allowed))]
pub(crate) fn not_allowed<'l>(words: &[&'l str]) -> Option<Hint<'l>>
    ensures { option_map plain_hint result ≡ not_allowed (map (λ word. word.now) words.now) }
{
    let first = word_at(words, 0);
    let verb = word_at(words, 1);
    if is_reserved(first) {
        return about("only act lines are taken here, and ", first, " is none");
    }
    if verb == "unwind" {
        return about("only act lines are taken here, and ", verb, " is none");
    }
    about(
        "",
        verb,
        " is for nodes; a console may undo, go back and unwind",
    )
}

/// The place, counted from 0, at which a line has its number, by the line's first two words.
fn number_place(first: &str, verb: &str) -> usize
    ensures { result ≡ number_place first.now verb.now }
{
    if first == "why" {
        1
    } else if verb == "deliver" || verb == "answer" {
        3
    } else {
        2
    }
}

/// The hint for a line with a word that should be a number and isn't one.
#[tactic(auto, unfolding(crate::specs::Choices::bad_number))]
pub(crate) fn bad_number<'l>(words: &[&'l str]) -> Option<Hint<'l>>
    ensures { option_map plain_hint result ≡ bad_number (map (λ word. word.now) words.now) }
{
    let place = number_place(word_at(words, 0), word_at(words, 1));
    about(
        "",
        word_at(words, place),
        " is no number of at most 18446744073709551615, as 0 or 17",
    )
}
