//! `Command`: what one line of a script asks.
ghost use Rattle.std.specs.Prelude.{map, IsTrue};
ghost use Rattle.std.specs.List.{list_all};
ghost use Rattle.grammar_core.specs.Results.{Gives, Meets};
ghost use Rattle.grammar_core.specs.Grammar.{keyword_of, verb_line, actor_line, journal_of, command_by};
ghost use Rattle.grammar_core.specs.Scripts.{plain_command};
ghost use Rattle.grammar_core.specs.Words.{is_visible};

use crate::cast::Cast;
use crate::fault::FaultKind;
use crate::keyword::{Keyword, Verb, is_for_consoles, keyword_of, verb_of};
use crate::steps::{
    answer_of, broadcast_of, deliver_of, down_of, extract_of, join_of, leave_all_of, leave_of,
    one_node, one_number, permdown_of, request_of, up_of, update_of,
};
use bench_core::{Act, Names};
use std::alloc::Allocator;

/// What a line of a script asks. Nodes and actors are numbers.
#[derive(Drop)]
pub enum Command<A: Allocator> {
    /// An act that this actor asks for.
    Call(u16, Act<A>),
    /// An unwind that this actor asks for: the undo of the step with this number, and of all that follows from it.
    Unwind(u16, u64),
    /// The online list of a node.
    Show(u16),
    /// The statuses, clocks and clouds at a node.
    Dots(u16),
    /// The future of a step.
    Why(u64),
    /// The kept steps.
    Journal,
}

/// What `actor` asks for with `verb` and `args`, the words behind the verb; or the fault of `args`.
#[tactic(auto, unfolding(crate::specs::Grammar::verb_line))]
fn verb_line<A: Allocator + Copy>(
    alloc: A,
    nodes: &Names<A>,
    actor: u16,
    verb: Verb,
    args: &[&str],
) -> Result<Command<A>, FaultKind>
    requires { IsTrue (list_all is_visible (map (λ word. word.now) args.now)) }
    ensures { Gives plain_command result (verb_line nodes.now actor verb (map (λ word. word.now) args.now)) }
{
    match verb {
        Verb::Join => Ok(Command::Call(actor, Act::Do(join_of(alloc, args)?))),
        Verb::Leave => Ok(Command::Call(actor, Act::Do(leave_of(alloc, args)?))),
        Verb::LeaveAll => Ok(Command::Call(actor, Act::Do(leave_all_of(args)?))),
        Verb::Update => Ok(Command::Call(actor, Act::Do(update_of(alloc, args)?))),
        Verb::Broadcast => Ok(Command::Call(actor, Act::Do(broadcast_of(args)?))),
        Verb::Extract => Ok(Command::Call(actor, Act::Do(extract_of(nodes, args)?))),
        Verb::Deliver => Ok(Command::Call(actor, Act::Do(deliver_of(nodes, args)?))),
        Verb::Request => Ok(Command::Call(actor, Act::Do(request_of(args)?))),
        Verb::Answer => Ok(Command::Call(actor, Act::Do(answer_of(nodes, args)?))),
        Verb::Up => Ok(Command::Call(actor, Act::Do(up_of(nodes, args)?))),
        Verb::Down => Ok(Command::Call(actor, Act::Do(down_of(nodes, args)?))),
        Verb::Permdown => Ok(Command::Call(actor, Act::Do(permdown_of(nodes, args)?))),
        Verb::Undo => Ok(Command::Call(actor, Act::Undo(one_number(args)?))),
        Verb::Back => Ok(Command::Call(actor, Act::Back(one_node(nodes, args)?))),
        Verb::Unwind => Ok(Command::Unwind(actor, one_number(args)?)),
    }
}

/// The command of an actor's line, whose words after the actor's name are `words`. `WrongCount` if there are none,
/// `UnknownWord` if the first isn't a verb, `NotAllowed` if a console uses a node's verb; else the fault of the words
/// behind the verb.
#[tactic(auto, unfolding(crate::specs::Grammar::actor_line))]
fn actor_line<A: Allocator + Copy>(
    alloc: A,
    cast: &Cast<A>,
    actor: u16,
    words: &[&str],
) -> Result<Command<A>, FaultKind>
    requires { IsTrue (list_all is_visible (map (λ word. word.now) words.now)) }
    ensures { Gives plain_command result (actor_line cast.now actor (map (λ word. word.now) words.now)) }
{
    let [verb, args @ ..] = words else {
        return Err(FaultKind::WrongCount);
    };
    let verb = verb_of(verb).ok_or(FaultKind::UnknownWord)?;
    if actor as usize >= cast.nodes().len() && !is_for_consoles(verb) {
        return Err(FaultKind::NotAllowed);
    }
    verb_line(alloc, cast.nodes(), actor, verb, args)
}

/// Reads a line `journal`; `words` are the words behind `journal`. `WrongCount` if there are any.
#[tactic(auto, unfolding(crate::specs::Grammar::journal_of))]
fn journal_of<A: Allocator>(words: &[&str]) -> Result<Command<A>, FaultKind>
    ensures { Meets plain_command result (journal_of (map (λ word. word.now) words.now)) }
{
    if !words.is_empty() {
        return Err(FaultKind::WrongCount);
    }
    Ok(Command::Journal)
}

/// Reads a line behind the `nodes` line: `first` is its first word, `rest` the words behind that one. `Twice` if
/// `first` is `nodes` or `consoles`; the caller gives a `consoles` line to `add_consoles` instead. `UnknownWord` if
/// `first` is neither a keyword nor an actor's name; else the faults of `rest`.
#[tactic(auto, unfolding(crate::specs::Grammar::command_by))]
pub fn command_of<A: Allocator + Copy>(
    alloc: A,
    cast: &Cast<A>,
    first: &str,
    rest: &[&str],
) -> Result<Command<A>, FaultKind>
    requires { IsTrue (list_all is_visible (map (λ word. word.now) rest.now)) }
    ensures { Gives plain_command result (command_by (keyword_of first.now) cast.now first.now (map (λ word. word.now) rest.now)) }
{
    match keyword_of(first) {
        Some(Keyword::Nodes | Keyword::Consoles) => Err(FaultKind::Twice),
        Some(Keyword::Show) => Ok(Command::Show(one_node(cast.nodes(), rest)?)),
        Some(Keyword::Dots) => Ok(Command::Dots(one_node(cast.nodes(), rest)?)),
        Some(Keyword::Why) => Ok(Command::Why(one_number(rest)?)),
        Some(Keyword::Journal) => journal_of(rest),
        None => {
            let actor = cast.number_of(first).ok_or(FaultKind::UnknownWord)?;
            actor_line(alloc, cast, actor, rest)
        }
    }
}
