//! Writes the data of a page.
ghost use Rattle.std.specs.Prelude.{◌≡◌, ◌++◌, IfOk, OnOk, string_bytes};
ghost use Rattle.transcript_core.specs.Scripts.{cast_of};
ghost use Rattle.page_data.specs.PageData.{calls_text, consoles_text, data_with, nodes_text, page_data, run_text, texts_text};

use crate::calls::put_event;
use crate::json::{put_comma, put_string};
use bench_core::{Bench, History, Names, TextSet};
use dots_core::Oom;
use report_core::name_at;
use std::alloc::Allocator;
use transcript_core::console_at;

/// Appends the names of the nodes as strings, separated by commas.
fn put_names<A: Allocator, N: Allocator>(text: &mut String<A>, names: &Names<N>) -> Result<(), Oom>
    ensures { OnOk result (string_bytes text.new ≡ string_bytes text.old ++ texts_text 0 names.now) }
{
    for number in 0..names.len() as u16 {
        put_comma(text, number as usize)?;
        put_string(text, name_at(names, number))?;
    }
    Ok(())
}

/// Appends the texts as JSON strings, separated by commas, without brackets.
pub fn put_texts<A: Allocator, C: Allocator>(
    text: &mut String<A>,
    texts: &TextSet<C>,
) -> Result<(), Oom>
    ensures { OnOk result (string_bytes text.new ≡ string_bytes text.old ++ texts_text 0 texts.now) }
{
    for place in 0..texts.len() {
        put_comma(text, place)?;
        put_string(text, console_at(texts, place))?;
    }
    Ok(())
}

/// Makes the recorded calls in turn on the bench, and appends what the page tells of each.
fn put_events<'a, B: Allocator>(
    text: &mut String<&'a B>,
    bench: &mut Bench<'a, B>,
    consoles: &TextSet<&'a B>,
    history: &History<'a, B>,
    alloc: &'a B,
) -> Result<(), Oom>
    ensures { OnOk result (string_bytes text.new ≡ string_bytes text.old ++ calls_text (cast_of bench.old consoles.now) bench.old 0 history.now) }
{
    for place in 0..history.len() {
        if let Some(event) = history.at(place) {
            put_event(text, bench, consoles, place, event, alloc)?;
        }
    }
    Ok(())
}

/// Appends the beginning of the data: the version and the names of the nodes.
#[tactic(auto, unfolding(crate::specs::PageData::nodes_text))]
fn put_nodes<A: Allocator, N: Allocator>(text: &mut String<A>, names: &Names<N>) -> Result<(), Oom>
    ensures { OnOk result (string_bytes text.new ≡ string_bytes text.old ++ nodes_text names.now) }
{
    text.push_str("{\"version\":1,\"nodes\":[")?;
    put_names(text, names)?;
    Ok(text.push_str("]")?)
}

/// Appends the names of the consoles and the beginning of the calls.
#[tactic(auto, unfolding(crate::specs::PageData::consoles_text))]
fn put_cast<A: Allocator, C: Allocator>(
    text: &mut String<A>,
    consoles: &TextSet<C>,
) -> Result<(), Oom>
    ensures { OnOk result (string_bytes text.new ≡ string_bytes text.old ++ consoles_text consoles.now) }
{
    text.push_str(",\"consoles\":[")?;
    put_texts(text, consoles)?;
    Ok(text.push_str("],\"calls\":[")?)
}

/// The data of a page from its beginning through the last call. The brackets that close the list of calls and the data
/// are missing.
#[tactic(auto, unfolding(crate::specs::PageData::run_text))]
fn run_text<'a, B: Allocator>(
    bench: &Bench<'a, B>,
    alloc: &'a B,
    consoles: &TextSet<&'a B>,
) -> Result<String<&'a B>, Oom>
    ensures { IfOk result (λ text. string_bytes text ≡ run_text bench.now consoles.now) }
{
    let mut text = String::new(alloc);
    put_nodes(&mut text, bench.names())?;
    put_cast(&mut text, consoles)?;
    let names = bench.names().try_copy()?;
    let mut again = Bench::new(alloc, names, bench.limits())?;
    let put = put_events(&mut text, &mut again, consoles, bench.history(), alloc);
    // form: drop before exit
    again.discard();
    put?;
    Ok(text)
}

/// The data of the page of a bench, as JSON: the names of the nodes, the names of the consoles, which `consoles` has,
/// and what the page tells of each recorded call. No `<` stands in the data. To tell of the calls, `page_data` makes
/// them again on a new bench with the same names and limits.
#[tactic(auto, unfolding(crate::specs::PageData::page_data))]
pub fn page_data<'a, B: Allocator>(
    bench: &Bench<'a, B>,
    alloc: &'a B,
    consoles: &TextSet<&'a B>,
) -> Result<String<&'a B>, Oom>
    ensures { IfOk result (λ text. string_bytes text ≡ page_data bench.now consoles.now) }
{
    let mut text = run_text(bench, alloc, consoles)?;
    text.push_str("]}")?;
    Ok(text)
}

/// Like `page_data`, but with `keys` after the calls: further keys of the JSON object, each with a comma before it. No
/// `<` stands in the data if none stands in `keys`.
#[tactic(auto, unfolding(crate::specs::PageData::data_with))]
pub fn page_data_with<'a, B: Allocator>(
    bench: &Bench<'a, B>,
    alloc: &'a B,
    consoles: &TextSet<&'a B>,
    keys: &str,
) -> Result<String<&'a B>, Oom>
    ensures { IfOk result (λ text. string_bytes text ≡ data_with bench.now consoles.now keys.now) }
{
    let mut text = run_text(bench, alloc, consoles)?;
    text.push_str("]")?;
    text.push_str(keys)?;
    text.push_str("}")?;
    Ok(text)
}
