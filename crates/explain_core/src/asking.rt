//! The explanation for a question in words.
ghost use Rattle.std.specs.Prelude.{IfErr, IfOk, string_bytes};
ghost use Rattle.explain_core.specs.Questions.{IsExplanation, Refuses};

use crate::ask_fault::AskFault;
use crate::explaining::explain;
use bench_core::Bench;
use payload_core::Word;
use std::alloc::Allocator;

/// Asks why the presences of this topic and key are online at the node of this name, or why not.
#[derive(Clone, Copy, Debug, PartialEq, Eq)]
pub struct Question<'q> {
    pub node: &'q str,
    pub topic: &'q str,
    pub key: &'q str,
}

/// The explanation for the question. `NoSuchNode` if no node has the name; else `NoWord` if the topic or the key isn't
/// a word, or `OutOfMemory`.
pub fn explain_asked<'a, B: Allocator>(
    bench: &Bench<'a, B>,
    alloc: &'a B,
    question: Question<'_>,
) -> Result<String<&'a B>, AskFault>
    ensures text { IfOk result (λ text. IsExplanation bench.now question.entry (string_bytes text)) }
    ensures refused { IfErr result (Refuses bench.now question.entry) }
{
    let Some(node) = bench.names().number_of(question.node) else {
        return Err(AskFault::NoSuchNode);
    };
    let topic = Word::new(alloc, question.topic)?;
    let key = Word::new(alloc, question.key)?;
    let text = explain(bench, node, &topic, &key, alloc);
    // form: drop before exit
    drop(key);
    drop(topic);
    Ok(text?)
}
