//! Comments that tell the nodes' own names, and the value behind each `~NUMBER` at the end of a cut word.
ghost use Rattle.std.specs.Prelude.{◌≡◌, ◌++◌, ◌<◌, ◌≤◌, ◌^◌, true, IfOk, OnOk, length, string_bytes};
ghost use Rattle.dots_core.specs.Names.{most_names};
ghost use Rattle.grammar_core.specs.Words.{is_text};
ghost use Rattle.import_core.specs.Tables.{all_of};
ghost use Rattle.import_report.specs.Comments.{comments_text, node_comment, nodes_comments, shortened, word_line, words_comments};
ghost use Rattle.import_report.specs.Events.{ended};

use crate::ascii::{ascii_text, string_text};
use crate::names::text_at;
use bench_core::{Names, TextSet};
use dots_core::Oom;
use import_core::Tables;
use report_core::name_at;
use std::alloc::Allocator;

/// The most bytes of a text in a comment: so few that the comment fits into a line of a script.
const LONGEST_TOLD: usize = 4000;

/// The text, which must be ASCII; if it has more than 4,000 bytes, its first 4,000 and `..`.
fn shortened<A: Allocator>(alloc: A, text: &str) -> Result<String<A>, Oom>
    requires { is_text text.now ≡ true }
    ensures { IfOk result (λ s. string_bytes s ≡ shortened text.now) }
{
    if text.len() <= LONGEST_TOLD {
        return String::from_str(alloc, text);
    }
    let mut short = String::from_str(alloc, &text[..LONGEST_TOLD])?;
    short.push_str("..")?;
    Ok(short)
}

/// Appends a comment such as `# n0 is "app@10.0.0.1"`, with the name of a node in the script (`name`) and its own name
/// (`node`); nothing if the two are the same.
fn put_node<A: Allocator + Copy>(
    alloc: A,
    text: &mut String<A>,
    name: &str,
    node: &str,
) -> Result<(), Oom>
    ensures { OnOk result (string_bytes text.new ≡ string_bytes text.old ++ node_comment name.now node.now) }
{
    if name == node {
        return Ok(());
    }
    let told = shortened(alloc, &string_text(alloc, node)?)?;
    // form: a `writeln!` split in pieces, which the proof takes one by one
    write!(text, "# {name} is \"")?;
    text.push_str(&told)?;
    Ok(text.push_str("\"\n")?)
}

/// Appends a comment for each node whose name in the script isn't its own.
fn put_nodes<A: Allocator + Copy, N: Allocator>(
    alloc: A,
    text: &mut String<A>,
    names: &Names<N>,
    nodes: &TextSet<A>,
) -> Result<(), Oom>
    requires { length nodes.now ≤ most_names }
    ensures { OnOk result (string_bytes text.new ≡ string_bytes text.old ++ nodes_comments names.now 0 nodes.now) }
{
    for number in 0..nodes.len() {
        let name = name_at(names, number as u16);
        put_node(alloc, text, name, text_at(nodes, number))?;
    }
    Ok(())
}

/// Appends the comment `# ~NUMBER is TEXT`. TEXT is `value` in ASCII and shortened; `value` is the JSON text of the
/// value whose word was cut under this number.
fn put_word<A: Allocator + Copy>(
    alloc: A,
    text: &mut String<A>,
    number: u64,
    value: &str,
) -> Result<(), Oom>
    ensures { OnOk result (string_bytes text.new ≡ string_bytes text.old ++ ended (word_line number value.now)) }
{
    let told = shortened(alloc, &ascii_text(alloc, value)?)?;
    // form: a `writeln!` split in pieces, which the proof takes one by one
    write!(text, "# ~{number} is ")?;
    text.push_str(&told)?;
    Ok(text.push_str("\n")?)
}

/// Appends a comment for each value whose word was cut.
fn put_words<A: Allocator + Copy>(
    alloc: A,
    text: &mut String<A>,
    longs: &TextSet<A>,
) -> Result<(), Oom>
    ensures text { OnOk result (string_bytes text.new ≡ string_bytes text.old ++ words_comments 0 longs.now) }
    ensures few { length longs.now < 2 ^ 64 }
{
    for number in 0..longs.len() {
        put_word(alloc, text, number as u64, text_at(longs, number))?;
    }
    Ok(())
}

/// Appends the comments that tell what the nodes' names and the cut words stand for.
#[tactic(auto, unfolding(crate::specs::Comments::comments_text))]
pub(crate) fn put_comments<A: Allocator + Copy, N: Allocator>(
    alloc: A,
    text: &mut String<A>,
    names: &Names<N>,
    tables: &Tables<A>,
) -> Result<(), Oom>
    requires { length tables.now.nodes ≤ most_names }
    ensures text { OnOk result (string_bytes text.new ≡ string_bytes text.old ++ comments_text names.now (all_of tables.now)) }
    ensures few { OnOk result (length tables.now.longs < 2 ^ 64) }
{
    put_nodes(alloc, text, names, &tables.nodes)?;
    put_words(alloc, text, &tables.longs)
}
