//! Reads a node's step from the words after its verb.
ghost use Rattle.std.specs.Prelude.{◌<◌, map, IsTrue, IfOk};
ghost use Rattle.std.specs.List.{list_all};
ghost use Rattle.dots_core.specs.Names.{most_names};
ghost use Rattle.node_core.specs.Operations.{plain};
ghost use Rattle.grammar_core.specs.Results.{Gives, Meets};
ghost use Rattle.grammar_core.specs.Grammar.{node_at, number_at, word_at, presence_with, presence_of, join_of, update_of, leave_with, leave_of};
ghost use Rattle.grammar_core.specs.Grammar.{leave_all_of, one_number, one_node, up_of, down_of, permdown_of, broadcast_of, with_node, with_nodes};
ghost use Rattle.grammar_core.specs.Grammar.{extract_of, message_with, one_message, deliver_of, request_of, answer_of};
ghost use Rattle.grammar_core.specs.Presences.{plain_presence};
ghost use Rattle.grammar_core.specs.Words.{is_visible};

use crate::fault::FaultKind;
use crate::words::number_of;
use bench_core::{Names, Step};
use dots_core::{MOST_NAMES, NameSet};
use payload_core::{Word, WordFault};
use std::alloc::Allocator;

/// The number of the node called `name`; `BadName` if no node is called so.
#[tactic(auto, unfolding(crate::specs::Grammar::node_at))]
fn node_at<A: Allocator>(nodes: &Names<A>, name: &str) -> Result<u16, FaultKind>
    ensures gives { Meets (λ node. node) result (node_at nodes.now name.now) }
    ensures small { IfOk result (λ node. node < most_names) }
{
    // form: the proof reads that there are at most 32 nodes
    let _few = nodes.len();
    nodes.number_of(name).ok_or(FaultKind::BadName)
}

/// The number that `digits` spell; `BadNumber` if they spell none.
#[tactic(auto, unfolding(crate::specs::Grammar::number_at))]
fn number_at(digits: &str) -> Result<u64, FaultKind>
    ensures { Meets (λ number. number) result (number_at digits.now) }
{
    number_of(digits).ok_or(FaultKind::BadNumber)
}

/// Reads a word as a topic, key or metadata. The word isn't empty and its bytes are visible, so nothing but its length
/// (`TooLong`) can be wrong with it.
#[tactic(auto, unfolding(crate::specs::Grammar::word_at))]
fn word_at<A: Allocator + Clone>(alloc: A, word: &str) -> Result<Word<A>, FaultKind>
    requires { IsTrue (is_visible word.now) }
    ensures { Gives (λ word. word) result (word_at word.now) }
{
    match Word::new(alloc, word) {
        Ok(word) => Ok(word),
        Err(WordFault::BadWord) => Err(FaultKind::TooLong),
        Err(WordFault::OutOfMemory) => Err(FaultKind::OutOfMemory),
    }
}

/// What a join or an update says: process, topic, key and metadata.
#[derive(Drop)]
pub struct Presence<A: Allocator> {
    pid: u64,
    topic: Word<A>,
    key: Word<A>,
    metadata: Word<A>,
}

/// The presence that these four words spell, or the fault of the first word that is wrong.
#[tactic(auto, unfolding(crate::specs::Grammar::presence_with))]
fn presence_with<A: Allocator + Copy>(
    alloc: A,
    pid: &str,
    topic: &str,
    key: &str,
    metadata: &str,
) -> Result<Presence<A>, FaultKind>
    requires topic_word { IsTrue (is_visible topic.now) }
    requires key_word { IsTrue (is_visible key.now) }
    requires metadata_word { IsTrue (is_visible metadata.now) }
    ensures { Gives plain_presence result (presence_with pid.now topic.now key.now metadata.now) }
{
    let pid = number_at(pid)?;
    let topic = word_at(alloc, topic)?;
    let key = word_at(alloc, key)?;
    let metadata = word_at(alloc, metadata)?;
    Ok(Presence {
        pid,
        topic,
        key,
        metadata,
    })
}

/// Reads a presence: `PID TOPIC KEY META`. `WrongCount` unless there are four words; of four words, the fault of the
/// first that is wrong.
#[tactic(auto, unfolding(crate::specs::Grammar::presence_of))]
fn presence_of<A: Allocator + Copy>(alloc: A, args: &[&str]) -> Result<Presence<A>, FaultKind>
    requires { IsTrue (list_all is_visible (map (λ word. word.now) args.now)) }
    ensures { Gives plain_presence result (presence_of (map (λ word. word.now) args.now)) }
{
    let [pid, topic, key, metadata] = args else {
        return Err(FaultKind::WrongCount);
    };
    presence_with(alloc, pid, topic, key, metadata)
}

/// Reads a join: `PID TOPIC KEY META`, with the faults of `presence_of`.
#[tactic(auto, unfolding(crate::specs::Grammar::join_of))]
pub fn join_of<A: Allocator + Copy>(alloc: A, args: &[&str]) -> Result<Step<A>, FaultKind>
    requires { IsTrue (list_all is_visible (map (λ word. word.now) args.now)) }
    ensures { Gives plain result (join_of (map (λ word. word.now) args.now)) }
{
    let presence = presence_of(alloc, args)?;
    Ok(Step::Join {
        pid: presence.pid,
        topic: presence.topic,
        key: presence.key,
        metadata: presence.metadata,
    })
}

/// Reads an update: `PID TOPIC KEY META`, with the faults of `presence_of`.
#[tactic(auto, unfolding(crate::specs::Grammar::update_of))]
pub fn update_of<A: Allocator + Copy>(alloc: A, args: &[&str]) -> Result<Step<A>, FaultKind>
    requires { IsTrue (list_all is_visible (map (λ word. word.now) args.now)) }
    ensures { Gives plain result (update_of (map (λ word. word.now) args.now)) }
{
    let presence = presence_of(alloc, args)?;
    Ok(Step::Update {
        pid: presence.pid,
        topic: presence.topic,
        key: presence.key,
        metadata: presence.metadata,
    })
}

/// The leave that these three words spell, or the fault of the first word that is wrong.
#[tactic(auto, unfolding(crate::specs::Grammar::leave_with))]
fn leave_with<A: Allocator + Copy>(
    alloc: A,
    pid: &str,
    topic: &str,
    key: &str,
) -> Result<Step<A>, FaultKind>
    requires topic_word { IsTrue (is_visible topic.now) }
    requires key_word { IsTrue (is_visible key.now) }
    ensures { Gives plain result (leave_with pid.now topic.now key.now) }
{
    let pid = number_at(pid)?;
    let topic = word_at(alloc, topic)?;
    let key = word_at(alloc, key)?;
    Ok(Step::Leave { pid, topic, key })
}

/// Reads a leave: `PID TOPIC KEY`. `WrongCount` unless there are three words; of three words, the fault of the first
/// that is wrong.
#[tactic(auto, unfolding(crate::specs::Grammar::leave_of))]
pub fn leave_of<A: Allocator + Copy>(alloc: A, args: &[&str]) -> Result<Step<A>, FaultKind>
    requires { IsTrue (list_all is_visible (map (λ word. word.now) args.now)) }
    ensures { Gives plain result (leave_of (map (λ word. word.now) args.now)) }
{
    let [pid, topic, key] = args else {
        return Err(FaultKind::WrongCount);
    };
    leave_with(alloc, pid, topic, key)
}

/// The number that the only word of `args` spells. `WrongCount` unless there is one word, `BadNumber` if it spells
/// none.
#[tactic(auto, unfolding(crate::specs::Grammar::one_number))]
pub fn one_number(args: &[&str]) -> Result<u64, FaultKind>
    ensures { Meets (λ number. number) result (one_number (map (λ word. word.now) args.now)) }
{
    let [number] = args else {
        return Err(FaultKind::WrongCount);
    };
    number_at(number)
}

/// The node that the only word of `args` names. `WrongCount` unless there is one word, `BadName` if no node has the
/// name.
#[tactic(auto, unfolding(crate::specs::Grammar::one_node))]
pub fn one_node<A: Allocator>(nodes: &Names<A>, args: &[&str]) -> Result<u16, FaultKind>
    ensures { Meets (λ node. node) result (one_node nodes.now (map (λ word. word.now) args.now)) }
{
    let [name] = args else {
        return Err(FaultKind::WrongCount);
    };
    node_at(nodes, name)
}

/// Reads a leave all, by which a process leaves under all its topics and keys: `PID`, with the faults of `one_number`.
#[tactic(auto, unfolding(crate::specs::Grammar::leave_all_of))]
pub fn leave_all_of<A: Allocator>(args: &[&str]) -> Result<Step<A>, FaultKind>
    ensures { Meets plain result (leave_all_of (map (λ word. word.now) args.now)) }
{
    let pid = one_number(args)?;
    Ok(Step::LeaveAll { pid })
}

/// Reads an up: `NAME`, with the faults of `one_node`.
#[tactic(auto, unfolding(crate::specs::Grammar::up_of))]
pub fn up_of<A: Allocator>(nodes: &Names<A>, args: &[&str]) -> Result<Step<A>, FaultKind>
    ensures { Meets plain result (up_of nodes.now (map (λ word. word.now) args.now)) }
{
    let name = one_node(nodes, args)?;
    Ok(Step::Up { name })
}

/// Reads a down: `NAME`, with the faults of `one_node`.
#[tactic(auto, unfolding(crate::specs::Grammar::down_of))]
pub fn down_of<A: Allocator>(nodes: &Names<A>, args: &[&str]) -> Result<Step<A>, FaultKind>
    ensures { Meets plain result (down_of nodes.now (map (λ word. word.now) args.now)) }
{
    let name = one_node(nodes, args)?;
    Ok(Step::Down { name })
}

/// Reads a permanently down: `NAME`, with the faults of `one_node`.
#[tactic(auto, unfolding(crate::specs::Grammar::permdown_of))]
pub fn permdown_of<A: Allocator>(nodes: &Names<A>, args: &[&str]) -> Result<Step<A>, FaultKind>
    ensures { Meets plain result (permdown_of nodes.now (map (λ word. word.now) args.now)) }
{
    let name = one_node(nodes, args)?;
    Ok(Step::Permdown { name })
}

/// Reads a broadcast, which takes no words; `WrongCount` if there are any.
#[tactic(auto, unfolding(crate::specs::Grammar::broadcast_of))]
pub fn broadcast_of<A: Allocator>(args: &[&str]) -> Result<Step<A>, FaultKind>
    ensures { Meets plain result (broadcast_of (map (λ word. word.now) args.now)) }
{
    if !args.is_empty() {
        return Err(FaultKind::WrongCount);
    }
    Ok(Step::Broadcast)
}

/// Reads a request, which takes no words; `WrongCount` if there are any.
#[tactic(auto, unfolding(crate::specs::Grammar::request_of))]
pub fn request_of<A: Allocator>(args: &[&str]) -> Result<Step<A>, FaultKind>
    ensures { Meets plain result (request_of (map (λ word. word.now) args.now)) }
{
    if !args.is_empty() {
        return Err(FaultKind::WrongCount);
    }
    Ok(Step::Request)
}

/// The nodes in `chosen` and the node called `name`. `BadName` if no node is called so, `Twice` if that node is in
/// `chosen` already.
#[tactic(auto, unfolding(crate::specs::Grammar::with_node))]
fn with_node<A: Allocator>(
    nodes: &Names<A>,
    chosen: NameSet,
    name: &str,
) -> Result<NameSet, FaultKind>
    ensures { Meets (λ chosen. chosen) result (with_node nodes.now chosen name.now) }
{
    let node = node_at(nodes, name)?;
    if chosen.has(node) {
        return Err(FaultKind::Twice);
    }
    Ok(chosen.with(node))
}

/// Reads an extract: `NAME ..`. `WrongCount` if there are no names or more than `MOST_NAMES`; after that, the fault of
/// the first name that `with_node` refuses.
#[tactic(auto, unfolding(crate::specs::Grammar::extract_of, crate::specs::Grammar::with_nodes))]
pub fn extract_of<A: Allocator>(nodes: &Names<A>, names: &[&str]) -> Result<Step<A>, FaultKind>
    ensures { Meets plain result (extract_of nodes.now (map (λ word. word.now) names.now)) }
{
    if names.is_empty() || names.len() > usize::from(MOST_NAMES) {
        return Err(FaultKind::WrongCount);
    }
    let mut chosen = NameSet::empty();
    for name in names {
        chosen = with_node(nodes, chosen, name)?;
    }
    Ok(Step::Extract { names: chosen })
}

#[tactic(auto, unfolding(crate::specs::Grammar::message_with))]
fn message_with<A: Allocator>(
    nodes: &Names<A>,
    name: &str,
    number: &str,
) -> Result<(u16, u64), FaultKind>
    ensures { Meets (λ message. message) result (message_with nodes.now name.now number.now) }
{
    let sender = node_at(nodes, name)?;
    let number = number_at(number)?;
    Ok((sender, number))
}

/// Reads the sender and the number of a message: `NAME NUMBER`. `WrongCount` unless there are two words; then `BadName`
/// if no node is called `NAME`; then `BadNumber`.
#[tactic(auto, unfolding(crate::specs::Grammar::one_message))]
fn one_message<A: Allocator>(nodes: &Names<A>, args: &[&str]) -> Result<(u16, u64), FaultKind>
    ensures { Meets (λ message. message) result (one_message nodes.now (map (λ word. word.now) args.now)) }
{
    let [name, number] = args else {
        return Err(FaultKind::WrongCount);
    };
    message_with(nodes, name, number)
}

/// Reads a delivery: `NAME NUMBER`, with the faults of `one_message`.
#[tactic(auto, unfolding(crate::specs::Grammar::deliver_of))]
pub fn deliver_of<A: Allocator>(nodes: &Names<A>, args: &[&str]) -> Result<Step<A>, FaultKind>
    ensures { Meets plain result (deliver_of nodes.now (map (λ word. word.now) args.now)) }
{
    let (sender, number) = one_message(nodes, args)?;
    Ok(Step::Deliver { sender, number })
}

/// Reads an answer: `NAME NUMBER`, with the faults of `one_message`.
#[tactic(auto, unfolding(crate::specs::Grammar::answer_of))]
pub fn answer_of<A: Allocator>(nodes: &Names<A>, args: &[&str]) -> Result<Step<A>, FaultKind>
    ensures { Meets plain result (answer_of nodes.now (map (λ word. word.now) args.now)) }
{
    let (sender, number) = one_message(nodes, args)?;
    Ok(Step::Answer { sender, number })
}
