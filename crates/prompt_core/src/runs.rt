//! The responses to those of the prompt's own lines that print the run of the bench: its picture, its steps, its
//! script, what a node has sent. Each function appends a response to `response`, or a fault with `number`, the number
//! of the line.
ghost use Rattle.std.specs.Prelude.{◌≡◌, ◌++◌, OnOk, map};
ghost use Rattle.bench_core.specs.NameList.{number_in};
ghost use Rattle.prompt_core.specs.Responses.{alone, drawn, run_word, script_within, sent_at, told_script, told_sent, told_steps};

use crate::fault_line::{put_fault, put_text};
use crate::sent::put_sent;
use bench_core::Bench;
use dots_core::Oom;
use grammar_core::{FaultKind, LONGEST_SCRIPT, ScriptFault};
use picture_core::draw_whole;
use run_core::Prompt;
use std::alloc::Allocator;
use transcript_core::{bench_steps, calls_text};

/// Appends the picture of the run, and a line feed; `NoNodes` before the nodes are named.
fn put_picture<'a, B: Allocator>(
    prompt: &Prompt<'a, B>,
    alloc: &'a B,
    response: &mut Vec<u8, &'a B>,
    number: u64,
) -> Result<(), Oom>
    ensures { OnOk result (response.new.items ≡ response.old.items ++ drawn number prompt.now.cast prompt.now.machine) }
{
    let Some(consoles) = prompt.consoles() else {
        return put_fault(alloc, response, number, FaultKind::NoNodes);
    };
    let Some(bench) = prompt.bench() else {
        return put_fault(alloc, response, number, FaultKind::NoNodes);
    };
    let picture = draw_whole(bench, alloc, consoles)?;
    response.extend_from_slice(&picture)?;
    put_text(response, "\n")
}

/// Like `put_picture`, if no word follows `:draw`; else appends `WrongCount`.
fn put_draw<'a, B: Allocator>(
    prompt: &Prompt<'a, B>,
    alloc: &'a B,
    response: &mut Vec<u8, &'a B>,
    number: u64,
    words: &[&str],
) -> Result<(), Oom>
    ensures { OnOk result (response.new.items ≡ response.old.items ++ alone number (map (λ word. word.now) words.now)
        (drawn number prompt.now.cast prompt.now.machine)) }
{
    // form: a pattern, as the definition goes by cases on the words
    let [_, ..] = words else {
        return put_picture(prompt, alloc, response, number);
    };
    put_fault(alloc, response, number, FaultKind::WrongCount)
}

/// Appends the recorded calls, each above what it printed; `NoNodes` before the nodes are named.
fn put_bench_steps<'a, B: Allocator>(
    prompt: &Prompt<'a, B>,
    alloc: &'a B,
    response: &mut Vec<u8, &'a B>,
    number: u64,
) -> Result<(), Oom>
    ensures { OnOk result (response.new.items ≡ response.old.items ++ told_steps number prompt.now.cast prompt.now.machine) }
{
    let Some(consoles) = prompt.consoles() else {
        return put_fault(alloc, response, number, FaultKind::NoNodes);
    };
    let Some(bench) = prompt.bench() else {
        return put_fault(alloc, response, number, FaultKind::NoNodes);
    };
    let steps = bench_steps(bench, alloc, consoles)?;
    Ok(response.extend_from_slice(&steps)?)
}

/// Like `put_bench_steps`, if no word follows `:steps`; else appends `WrongCount`.
fn put_steps<'a, B: Allocator>(
    prompt: &Prompt<'a, B>,
    alloc: &'a B,
    response: &mut Vec<u8, &'a B>,
    number: u64,
    words: &[&str],
) -> Result<(), Oom>
    ensures { OnOk result (response.new.items ≡ response.old.items ++ alone number (map (λ word. word.now) words.now)
        (told_steps number prompt.now.cast prompt.now.machine)) }
{
    // form: a pattern, as the definition goes by cases on the words
    let [_, ..] = words else {
        return put_bench_steps(prompt, alloc, response, number);
    };
    put_fault(alloc, response, number, FaultKind::WrongCount)
}

/// Appends a script, or `TooLong` if it is longer than a script may be.
fn put_within<A: Allocator + Copy>(
    alloc: A,
    response: &mut Vec<u8, A>,
    number: u64,
    script: &str,
) -> Result<(), Oom>
    ensures { OnOk result (response.new.items ≡ response.old.items ++ script_within number script.now) }
{
    if script.len() > LONGEST_SCRIPT {
        return put_fault(alloc, response, number, FaultKind::TooLong);
    }
    put_text(response, script)
}

/// Appends the recorded calls as a script; `NoNodes` before the nodes are named, `TooLong` if the text is longer than a
/// script may be.
fn put_calls<'a, B: Allocator>(
    prompt: &Prompt<'a, B>,
    alloc: &'a B,
    response: &mut Vec<u8, &'a B>,
    number: u64,
) -> Result<(), Oom>
    ensures { OnOk result (response.new.items ≡ response.old.items ++ told_script number prompt.now.cast prompt.now.machine) }
{
    let Some(consoles) = prompt.consoles() else {
        return put_fault(alloc, response, number, FaultKind::NoNodes);
    };
    let Some(bench) = prompt.bench() else {
        return put_fault(alloc, response, number, FaultKind::NoNodes);
    };
    let script = calls_text(bench, consoles, alloc)?;
    put_within(alloc, response, number, &script)
}

/// Like `put_calls`, if no word follows `:script`; else appends `WrongCount`.
fn put_script<'a, B: Allocator>(
    prompt: &Prompt<'a, B>,
    alloc: &'a B,
    response: &mut Vec<u8, &'a B>,
    number: u64,
    words: &[&str],
) -> Result<(), Oom>
    ensures { OnOk result (response.new.items ≡ response.old.items ++ alone number (map (λ word. word.now) words.now)
        (told_script number prompt.now.cast prompt.now.machine)) }
{
    // form: a pattern, as the definition goes by cases on the words
    let [_, ..] = words else {
        return put_calls(prompt, alloc, response, number);
    };
    put_fault(alloc, response, number, FaultKind::WrongCount)
}

/// Appends what the node with this name has sent; `BadName` if no node has the name.
fn put_sent_at<'a, B: Allocator>(
    bench: &Bench<'a, B>,
    alloc: &'a B,
    response: &mut Vec<u8, &'a B>,
    number: u64,
    name: &str,
) -> Result<(), Oom>
    ensures { OnOk result (response.new.items ≡ response.old.items ++ sent_at number bench.now (number_in bench.now.names name.now)) }
{
    let Some(node) = bench.names().number_of(name) else {
        return put_fault(alloc, response, number, FaultKind::BadName);
    };
    let mut text = String::new(alloc);
    put_sent(bench, &mut text, node)?;
    put_text(response, &text)
}

/// Like `put_sent_at`, for the node named by the one word in `words`, the words after `:sent`; `NoNodes` before the
/// nodes are named; else `WrongCount` unless there is one word.
#[tactic(auto, unfolding(crate::specs::Responses::told_sent))]
fn put_told_sent<'a, B: Allocator>(
    prompt: &Prompt<'a, B>,
    alloc: &'a B,
    response: &mut Vec<u8, &'a B>,
    number: u64,
    words: &[&str],
) -> Result<(), Oom>
    ensures { OnOk result (response.new.items ≡ response.old.items ++ told_sent number prompt.now.machine (map (λ word. word.now) words.now)) }
{
    let Some(bench) = prompt.bench() else {
        return put_fault(alloc, response, number, FaultKind::NoNodes);
    };
    let [node] = words else {
        return put_fault(alloc, response, number, FaultKind::WrongCount);
    };
    put_sent_at(bench, alloc, response, number, node)
}

/// Appends what a line with the first word `first` and then `words` prints of the run; `fault`, with which a script
/// would refuse the line, if `first` is none of `:draw`, `:steps`, `:script` and `:sent`.
#[tactic(auto, unfolding(crate::specs::Responses::run_word))]
pub fn put_run<'a, B: Allocator>(
    prompt: &Prompt<'a, B>,
    alloc: &'a B,
    response: &mut Vec<u8, &'a B>,
    fault: ScriptFault,
    first: &str,
    words: &[&str],
) -> Result<(), Oom>
    ensures { OnOk result (response.new.items ≡ response.old.items ++ run_word prompt.now fault.line fault.kind first.now (map (λ word. word.now) words.now)) }
{
    let number = fault.line;
    match first {
        ":draw" => put_draw(prompt, alloc, response, number, words),
        ":steps" => put_steps(prompt, alloc, response, number, words),
        ":script" => put_script(prompt, alloc, response, number, words),
        ":sent" => put_told_sent(prompt, alloc, response, number, words),
        _ => put_fault(alloc, response, number, fault.kind),
    }
}
