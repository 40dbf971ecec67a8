//! The responses to the prompt's own lines, which no script has. Each function appends a response to `response`, or a
//! fault with `number`, the number of the line.
ghost use Rattle.std.specs.Prelude.{◌≡◌, ◌++◌, [], OnOk, codes, map, true};
ghost use Rattle.bench_core.specs.NameList.{number_in};
ghost use Rattle.grammar_core.specs.Words.{is_text};
ghost use Rattle.prompt_core.specs.Responses.{alone, changes, changes_at, explained, explained_at, may_be_own, own_response, saved, worded};

use crate::fault_line::{put_fault, put_text};
use crate::runs::put_run;
use crate::setting::PromptSetting;
use bench_core::Bench;
use dots_core::Oom;
use explain_core::{AskFault, Question, explain_asked};
use grammar_core::{FaultKind, ScriptFault, words_of};
use progress_core::Silent;
use run_core::Prompt;
use session_core::save;
use std::alloc::{Allocator, Global};
use whatif_report::{WhatifFault, whatif_asked};

/// Appends the help and a line feed, if no word follows `:help`; else `WrongCount`. `words` are those after `:help`.
fn put_help<A: Allocator + Copy>(
    alloc: A,
    response: &mut Vec<u8, A>,
    help: &str,
    number: u64,
    words: &[&str],
) -> Result<(), Oom>
    ensures { OnOk result (response.new.items ≡ response.old.items ++ alone number (map (λ word. word.now) words.now) (help.now ++ codes "\n")) }
{
    // form: a pattern, as the definition goes by cases on the words
    let [_, ..] = words else {
        put_text(response, help)?;
        return put_text(response, "\n");
    };
    put_fault(alloc, response, number, FaultKind::WrongCount)
}

/// Appends nothing, if no word follows `:quit`, since such a line only ends a prompt; else `WrongCount`.
fn put_quit<A: Allocator + Copy>(
    alloc: A,
    response: &mut Vec<u8, A>,
    number: u64,
    words: &[&str],
) -> Result<(), Oom>
    ensures { OnOk result (response.new.items ≡ response.old.items ++ alone number (map (λ word. word.now) words.now) []) }
{
    // form: a pattern, as the definition goes by cases on the words
    let [_, ..] = words else {
        return Ok(());
    };
    put_fault(alloc, response, number, FaultKind::WrongCount)
}

/// Appends the bench as a session, and a line feed; `NoNodes` before the nodes are named.
fn put_saved<'a, B: Allocator>(
    prompt: &Prompt<'a, B>,
    heap: Global,
    alloc: &'a B,
    response: &mut Vec<u8, &'a B>,
    number: u64,
) -> Result<(), Oom>
    ensures { OnOk result (response.new.items ≡ response.old.items ++ saved number prompt.now.machine) }
{
    let Some(bench) = prompt.bench() else {
        return put_fault(alloc, response, number, FaultKind::NoNodes);
    };
    let session = save(heap, bench)?;
    response.extend_from_slice(&session)?;
    put_text(response, "\n")
}

/// Like `put_saved`, if no word follows `:save`; else appends `WrongCount`.
fn put_save<'a, B: Allocator>(
    prompt: &Prompt<'a, B>,
    heap: Global,
    alloc: &'a B,
    response: &mut Vec<u8, &'a B>,
    number: u64,
    words: &[&str],
) -> Result<(), Oom>
    ensures { OnOk result (response.new.items ≡ response.old.items ++ alone number (map (λ word. word.now) words.now) (saved number prompt.now.machine)) }
{
    // form: a pattern, as the definition goes by cases on the words
    let [_, ..] = words else {
        return put_saved(prompt, heap, alloc, response, number);
    };
    put_fault(alloc, response, number, FaultKind::WrongCount)
}

/// Appends the explanation for `question`; `BadName` if no node has the name that the question gives; else `TooLong` if
/// the topic or the key isn't a word.
fn put_explanation<'a, B: Allocator>(
    bench: &Bench<'a, B>,
    alloc: &'a B,
    response: &mut Vec<u8, &'a B>,
    number: u64,
    question: Question<'_>,
) -> Result<(), Oom>
    ensures { OnOk result (response.new.items ≡ response.old.items ++
        explained_at number bench.now (number_in bench.now.names question.entry.node.now) question.entry.topic.now question.entry.key.now) }
{
    match explain_asked(bench, alloc, question) {
        Ok(text) => put_text(response, text.as_str()),
        Err(AskFault::NoSuchNode) => put_fault(alloc, response, number, FaultKind::BadName),
        Err(AskFault::NoWord) => put_fault(alloc, response, number, FaultKind::TooLong),
        Err(AskFault::OutOfMemory) => Err(Oom),
    }
}

/// Like `put_explanation`, for the question that the words after `:explain` (`words`) ask; `NoNodes` before the nodes
/// are named; else `WrongCount` unless there are three words.
#[tactic(auto, unfolding(crate::specs::Responses::explained))]
fn put_explained<'a, B: Allocator>(
    prompt: &Prompt<'a, B>,
    alloc: &'a B,
    response: &mut Vec<u8, &'a B>,
    number: u64,
    words: &[&str],
) -> Result<(), Oom>
    ensures { OnOk result (response.new.items ≡ response.old.items ++ explained number prompt.now.machine (map (λ word. word.now) words.now)) }
{
    let Some(bench) = prompt.bench() else {
        return put_fault(alloc, response, number, FaultKind::NoNodes);
    };
    let [node, topic, key] = words else {
        return put_fault(alloc, response, number, FaultKind::WrongCount);
    };
    let question = Question { node, topic, key };
    put_explanation(bench, alloc, response, number, question)
}

/// Appends which single changes would have made a difference to the rows of `question`; `BadName` if no node has the
/// name that the question gives; else `TooLong` if the topic or the key isn't a word.
fn put_whatif<'a, B: Allocator>(
    bench: &Bench<'a, B>,
    alloc: &'a B,
    response: &mut Vec<u8, &'a B>,
    number: u64,
    question: whatif_report::Question<'_>,
) -> Result<(), Oom>
    ensures { OnOk result (response.new.items ≡ response.old.items ++
        changes_at number bench.now (number_in bench.now.names question.entry.node.now) question.entry.topic.now question.entry.key.now) }
{
    match whatif_asked(bench, alloc, question, &mut Silent) {
        Ok(text) => put_text(response, text.as_str()),
        Err(WhatifFault::NoSuchNode) => put_fault(alloc, response, number, FaultKind::BadName),
        Err(WhatifFault::NoWord) => put_fault(alloc, response, number, FaultKind::TooLong),
        // `whatif_asked` asks for no change by its number
        Err(WhatifFault::NoSuchChange { changes: _ }) => unreachable!(),
        Err(WhatifFault::OutOfMemory) => Err(Oom),
    }
}

/// Like `put_whatif`, for the question that the words after `:whatif` (`words`) ask; `NoNodes` before the nodes are
/// named; else `WrongCount` unless there are three words.
#[tactic(auto, unfolding(crate::specs::Responses::changes))]
fn put_changes<'a, B: Allocator>(
    prompt: &Prompt<'a, B>,
    alloc: &'a B,
    response: &mut Vec<u8, &'a B>,
    number: u64,
    words: &[&str],
) -> Result<(), Oom>
    ensures { OnOk result (response.new.items ≡ response.old.items ++ changes number prompt.now.machine (map (λ word. word.now) words.now)) }
{
    let Some(bench) = prompt.bench() else {
        return put_fault(alloc, response, number, FaultKind::NoNodes);
    };
    let [node, topic, key] = words else {
        return put_fault(alloc, response, number, FaultKind::WrongCount);
    };
    let question = whatif_report::Question { node, topic, key };
    put_whatif(bench, alloc, response, number, question)
}

/// Appends what a line with these words asks for, if the first word is one of the prompt's own; else `fault`, with
/// which a script would refuse the line.
#[tactic(auto, unfolding(crate::specs::Responses::worded))]
fn put_worded<'a, B: Allocator>(
    prompt: &Prompt<'a, B>,
    setting: &PromptSetting<'a, '_, B>,
    response: &mut Vec<u8, &'a B>,
    fault: ScriptFault,
    words: &[&str],
) -> Result<(), Oom>
    ensures { OnOk result (response.new.items ≡ response.old.items ++ worded setting.now.help.now prompt.now fault.line fault.kind
        (map (λ word. word.now) words.now)) }
{
    let alloc = setting.alloc;
    let number = fault.line;
    let [first, rest @ ..] = words else {
        return put_fault(alloc, response, number, fault.kind);
    };
    if *first == ":help" {
        return put_help(alloc, response, setting.help, number, rest);
    }
    if *first == ":quit" {
        return put_quit(alloc, response, number, rest);
    }
    if *first == ":save" {
        return put_save(prompt, setting.heap, alloc, response, number, rest);
    }
    if *first == ":explain" {
        return put_explained(prompt, alloc, response, number, rest);
    }
    if *first == ":whatif" {
        return put_changes(prompt, alloc, response, number, rest);
    }
    put_run(prompt, alloc, response, fault, first, rest)
}

/// Whether a line with this fault may be one of the prompt's own. A script refuses the prompt's own lines with
/// `NoNodes` before the nodes are named, and with `UnknownWord` after that.
fn may_be_own(kind: FaultKind) -> bool
    ensures { result ≡ may_be_own kind }
{
    matches!(kind, FaultKind::UnknownWord | FaultKind::NoNodes)
}

/// Appends the response to a line that a script would refuse with this fault: what the line asks for, if `may_be_own`
/// holds of the fault's kind and the line is one of the prompt's own; else the fault. If `may_be_own` holds, the line
/// must be text.
#[tactic(auto, unfolding(crate::specs::Responses::own_response))]
pub fn put_own<'a, B: Allocator>(
    prompt: &Prompt<'a, B>,
    setting: &PromptSetting<'a, '_, B>,
    response: &mut Vec<u8, &'a B>,
    fault: ScriptFault,
    line: &[u8],
) -> Result<(), Oom>
    requires { may_be_own fault.kind ≡ true → is_text line.now ≡ true }
    ensures { OnOk result (response.new.items ≡ response.old.items ++ own_response setting.now.help.now prompt.now fault.line line.now fault.kind) }
{
    if !may_be_own(fault.kind) {
        return put_fault(setting.alloc, response, fault.line, fault.kind);
    }
    let Ok(text) = str::from_utf8(line) else {
        unreachable!()
    };
    let words = words_of(setting.alloc, text)?;
    put_worded(prompt, setting, response, fault, &words)
}
