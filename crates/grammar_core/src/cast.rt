//! `Cast`: who may act.
ghost use Rattle.std.specs.Prelude.{◌≡◌, ◌+◌, ◌≤◌, length, map, IfErr, IfOk};
ghost use Rattle.grammar_core.specs.Results.{Gives};
ghost use Rattle.grammar_core.specs.Casts.{actor_in};
ghost use Rattle.grammar_core.specs.Grammar.{unreserved, node_names, opening, with_console, with_each, with_consoles};

use crate::fault::FaultKind;
use crate::keyword::keyword_of;
use bench_core::{Names, TextSet, is_name};
use dots_core::Oom;
use std::alloc::Allocator;
use std::marker::Model;
use std::mem;

/// How many consoles there are at most.
const MOST_CONSOLES: usize = 16;

/// The names of the nodes and of the consoles. Actors are numbered from 0, the nodes first.
#[derive(Drop)]
pub struct Cast<A: Allocator> {
    nodes: Names<A>,
    consoles: TextSet<A>,
}

impl<A: Allocator> Model for Cast<A> {
    ghost use Rattle.grammar_core.specs.Casts.{Cast as Actors, HasFew};

    ghost Value = { Actors };

    ghost view = { λ c. record { nodes = c.nodes; consoles = c.consoles } };

    ghost invariant = { λ c. HasFew (record { nodes = c.nodes; consoles = c.consoles }) };
}

impl<A: Allocator> Cast<A> {
    /// The names of the nodes, by number.
    pub fn nodes(&self) -> &Names<A>
        ensures { result.now ≡ self.now.nodes }
    {
        &self.nodes
    }

    /// The names of the consoles, in the order of the `consoles` line; empty until that line is read.
    pub fn consoles(&self) -> &TextSet<A>
        ensures { result.now ≡ self.now.consoles }
    {
        &self.consoles
    }

    /// How many nodes and consoles there are, together.
    pub fn len(&self) -> u16
        ensures { result ≡ length self.now.nodes + length self.now.consoles }
    {
        (self.nodes.len() + self.consoles.len()) as u16
    }

    /// The number of the node or console that is called `name`; `None` if nobody is called so.
    pub fn number_of(&self, name: &str) -> Option<u16>
        ensures { result ≡ actor_in self.now name.now }
    {
        if let Some(node) = self.nodes.number_of(name) {
            return Some(node);
        }
        let console = self.consoles.number_of(name)?;
        Some((self.nodes.len() + console) as u16)
    }
}

/// `word`, or the empty text if `word` is a keyword. Keywords are reserved, and the empty text isn't a name.
#[tactic(auto, unfolding(crate::specs::Grammar::unreserved))]
pub fn unreserved(word: &str) -> &str
    ensures { result.now ≡ unreserved word.now }
{
    if keyword_of(word).is_some() { "" } else { word }
}

/// The words, with the empty text in place of each keyword among them.
fn all_unreserved<'w, A: Allocator>(alloc: A, words: &[&'w str]) -> Result<Vec<&'w str, A>, Oom>
    ensures { IfOk result (λ plain. map (λ word. word.now) plain.items ≡ map unreserved (map (λ word. word.now) words.now)) }
{
    let mut plain = Vec::with_capacity(alloc, words.len())?;
    for word in words {
        plain.push(unreserved(word))?;
    }
    Ok(plain)
}

/// Makes the names of the nodes from `words`, the words behind `nodes`. `BadName` for a keyword, as for a word that
/// isn't a name; the other faults are those of `Names::new`.
#[tactic(auto, unfolding(crate::specs::Grammar::node_names))]
fn node_names<A: Allocator + Copy>(alloc: A, words: &[&str]) -> Result<Names<A>, FaultKind>
    ensures { Gives (λ names. names) result (node_names (map (λ word. word.now) words.now)) }
{
    let words = all_unreserved(alloc, words)?;
    Ok(Names::new(alloc, &words)?)
}

/// Reads the line `nodes NAME ..`, the first that has words and isn't a comment. `NoNodes` if `first`, the line's first
/// word, isn't `nodes`; else the fault of `names`, the words behind that (see `node_names`).
#[tactic(auto, unfolding(crate::specs::Grammar::opening))]
pub fn opening<A: Allocator + Copy>(
    alloc: A,
    first: &str,
    names: &[&str],
) -> Result<Cast<A>, FaultKind>
    ensures { Gives (λ cast. cast) result (opening first.now (map (λ name. name.now) names.now)) }
{
    if first != "nodes" {
        return Err(FaultKind::NoNodes);
    }
    let nodes = node_names(alloc, names)?;
    Ok(Cast {
        nodes,
        consoles: TextSet::new(alloc),
    })
}

/// Adds the console `name` to `consoles`. `BadName` if `name` isn't a name or is a keyword; `Twice` if a node or a
/// console has the name already.
#[tactic(auto, unfolding(crate::specs::Grammar::with_console))]
fn add_console<A: Allocator + Copy>(
    nodes: &Names<A>,
    consoles: &mut TextSet<A>,
    name: &str,
) -> Result<(), FaultKind>
    ensures gives { Gives (λ _. consoles.new) result (with_console nodes.now consoles.old name.now) }
    ensures len { length consoles.new ≤ length consoles.old + 1 }
{
    if !is_name(name) || keyword_of(name).is_some() {
        return Err(FaultKind::BadName);
    }
    if nodes.number_of(name).is_some() {
        return Err(FaultKind::Twice);
    }
    if !consoles.insert(name)? {
        return Err(FaultKind::Twice);
    }
    Ok(())
}

/// Adds a console for each of `names` to `consoles`, up to the first name that is refused. The names before the refused
/// one stay in `consoles`.
#[tactic(auto, unfolding(crate::specs::Grammar::with_each))]
fn add_each<A: Allocator + Copy>(
    nodes: &Names<A>,
    consoles: &mut TextSet<A>,
    names: &[&str],
) -> Result<(), FaultKind>
    ensures gives { Gives (λ _. consoles.new) result (with_each nodes.now consoles.old (map (λ name. name.now) names.now)) }
    ensures len { length consoles.new ≤ length consoles.old + length names.now }
{
    for name in names {
        add_console(nodes, consoles, name)?;
    }
    Ok(())
}

/// Reads a line `consoles NAME ..` into `cast`; `names` are the words behind `consoles`. `Twice` if `cast` has consoles
/// already, then `WrongCount` unless there are 1 to 16 names, then the fault of the first name that `add_console`
/// refuses. A fault leaves `cast` unchanged.
#[tactic(auto, unfolding(crate::specs::Grammar::with_consoles))]
pub fn add_consoles<A: Allocator + Copy>(
    alloc: A,
    cast: &mut Cast<A>,
    names: &[&str],
) -> Result<(), FaultKind>
    ensures gives { Gives (λ _. cast.new) result (with_consoles cast.old (map (λ name. name.now) names.now)) }
    ensures unchanged { IfErr result (λ _. cast.new ≡ cast.old) }
{
    if cast.consoles.len() != 0 {
        return Err(FaultKind::Twice);
    }
    if names.is_empty() || names.len() > MOST_CONSOLES {
        return Err(FaultKind::WrongCount);
    }
    let mut consoles = TextSet::new(alloc);
    add_each(&cast.nodes, &mut consoles, names)?;
    // form: an assignment would drop the old list field by field
    drop(mem::replace(&mut cast.consoles, consoles));
    Ok(())
}
