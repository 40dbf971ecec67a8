//! Prints a kept step as a line of a script, and the list of kept steps.
ghost use Rattle.std.specs.Prelude.{◌≡◌, ◌++◌, OnOk, codes, decimal, string_bytes};
ghost use Rattle.node_core.specs.Operations.{plain};
ghost use Rattle.journal_core.specs.Holdings.{kepts};
ghost use Rattle.report_core.specs.Rows.{name_at};
ghost use Rattle.report_core.specs.StepText.{presence_text, chosen_text, extract_from, step_text, act_line, kept_line, kept_lines, journal_text};

use crate::rows::name_at;
use bench_core::{Journal, Kept, Names, Step};
use dots_core::{NameSet, Oom};
use payload_core::Word;
use std::alloc::Allocator;

/// Appends `verb`, which ends in a space, and `PID TOPIC KEY META`.
#[tactic(auto, unfolding(crate::specs::StepText::presence_text))]
fn put_presence<A: Allocator, W: Allocator>(
    text: &mut String<A>,
    verb: &str,
    pid: u64,
    topic: &Word<W>,
    key: &Word<W>,
    metadata: &Word<W>,
) -> Result<(), Oom>
    ensures { OnOk result (string_bytes text.new ≡ string_bytes text.old ++ verb.now ++
        presence_text (record { pid = pid; topic = topic.now; key = key.now; metadata = metadata.now })) }
{
    let topic = topic.as_str();
    let key = key.as_str();
    let metadata = metadata.as_str();
    // form: in two pieces, which the proof takes one after the other
    write!(text, "{verb}{pid} {topic}")?;
    Ok(write!(text, " {key} {metadata}")?)
}

/// Appends `verb`, which ends in a space, and `SENDER NUMBER`.
fn put_message<A: Allocator, N: Allocator>(
    text: &mut String<A>,
    verb: &str,
    names: &Names<N>,
    sender: u16,
    number: u64,
) -> Result<(), Oom>
    ensures { OnOk result (string_bytes text.new ≡ string_bytes text.old ++ verb.now ++ name_at names.now sender ++ codes " " ++ decimal number) }
{
    let sender = name_at(names, sender);
    Ok(write!(text, "{verb}{sender} {number}")?)
}

/// Appends `verb`, which ends in a space, and a number.
fn put_number<A: Allocator>(text: &mut String<A>, verb: &str, number: u64) -> Result<(), Oom>
    ensures { OnOk result (string_bytes text.new ≡ string_bytes text.old ++ verb.now ++ decimal number) }
{
    Ok(write!(text, "{verb}{number}")?)
}

/// Appends `verb`, which ends in a space, and the name with the number `name`.
fn put_status<A: Allocator, N: Allocator>(
    text: &mut String<A>,
    verb: &str,
    names: &Names<N>,
    name: u16,
) -> Result<(), Oom>
    ensures { OnOk result (string_bytes text.new ≡ string_bytes text.old ++ verb.now ++ name_at names.now name) }
{
    text.push_str(verb)?;
    Ok(text.push_str(name_at(names, name))?)
}

/// Appends a space and the name with this number, if the number is in the set `chosen`.
fn put_name<A: Allocator, N: Allocator>(
    text: &mut String<A>,
    names: &Names<N>,
    chosen: NameSet,
    number: u16,
) -> Result<(), Oom>
    ensures { OnOk result (string_bytes text.new ≡ string_bytes text.old ++ chosen_text chosen number (name_at names.now number)) }
{
    if chosen.has(number) {
        let name = name_at(names, number);
        write!(text, " {name}")?;
    }
    Ok(())
}

/// Appends the names of the set `chosen` by rising number, each after a space. Numbers that no node has are left out.
fn put_names<A: Allocator, N: Allocator>(
    text: &mut String<A>,
    names: &Names<N>,
    chosen: NameSet,
) -> Result<(), Oom>
    ensures { OnOk result (string_bytes text.new ≡ string_bytes text.old ++ extract_from chosen 0 names.now) }
{
    for number in 0..names.len() as u16 {
        put_name(text, names, chosen, number)?;
    }
    Ok(())
}

/// Appends `leave PID TOPIC KEY`.
fn put_leave<A: Allocator, W: Allocator>(
    text: &mut String<A>,
    pid: u64,
    topic: &Word<W>,
    key: &Word<W>,
) -> Result<(), Oom>
    ensures { OnOk result (string_bytes text.new ≡ string_bytes text.old ++
        codes "leave " ++ decimal pid ++ codes " " ++ topic.now ++ codes " " ++ key.now) }
{
    let topic = topic.as_str();
    let key = key.as_str();
    Ok(write!(text, "leave {pid} {topic} {key}")?)
}

/// Appends `extract NAME ..`.
fn put_extract<A: Allocator, N: Allocator>(
    text: &mut String<A>,
    names: &Names<N>,
    chosen: NameSet,
) -> Result<(), Oom>
    ensures { OnOk result (string_bytes text.new ≡ string_bytes text.old ++ codes "extract" ++ extract_from chosen 0 names.now) }
{
    text.push_str("extract")?;
    put_names(text, names, chosen)
}

/// Appends `more`, a verb that no words follow.
fn put<A: Allocator>(text: &mut String<A>, more: &str) -> Result<(), Oom>
    ensures { OnOk result (string_bytes text.new ≡ string_bytes text.old ++ more.now) }
{
    Ok(text.push_str(more)?)
}

/// Appends the step as it stands in a script after the name of its node.
#[tactic(auto, unfolding(crate::specs::StepText::step_text))]
fn put_step<A: Allocator, N: Allocator, W: Allocator>(
    text: &mut String<A>,
    names: &Names<N>,
    step: &Step<W>,
) -> Result<(), Oom>
    ensures { OnOk result (string_bytes text.new ≡ string_bytes text.old ++ step_text names.now (plain step.now)) }
{
    match step {
        Step::Join {
            pid,
            topic,
            key,
            metadata,
        } => put_presence(text, "join ", *pid, topic, key, metadata),
        Step::Leave { pid, topic, key } => put_leave(text, *pid, topic, key),
        Step::LeaveAll { pid } => put_number(text, "leaveall ", *pid),
        Step::Update {
            pid,
            topic,
            key,
            metadata,
        } => put_presence(text, "update ", *pid, topic, key, metadata),
        Step::Broadcast => put(text, "broadcast"),
        Step::Extract { names: chosen } => put_extract(text, names, *chosen),
        Step::Deliver { sender, number } => {
            put_message(text, "deliver ", names, *sender, *number)
        }
        Step::Request => put(text, "request"),
        Step::Answer { sender, number } => put_message(text, "answer ", names, *sender, *number),
        Step::Up { name } => put_status(text, "up ", names, *name),
        Step::Down { name } => put_status(text, "down ", names, *name),
        Step::Permdown { name } => put_status(text, "permdown ", names, *name),
    }
}

/// Appends `NODE VERB ..`, as in a script, without a line feed.
#[tactic(auto, unfolding(crate::specs::StepText::act_line))]
pub fn put_act<A: Allocator, N: Allocator, W: Allocator>(
    text: &mut String<A>,
    names: &Names<N>,
    node: u16,
    step: &Step<W>,
) -> Result<(), Oom>
    ensures { OnOk result (string_bytes text.new ≡ string_bytes text.old ++ act_line names.now node (plain step.now)) }
{
    let node = name_at(names, node);
    write!(text, "{node} ")?;
    put_step(text, names, step)
}

/// Appends `NUMBER NODE VERB ..` and a line feed: the number of a kept step, and the step as a line of a script.
#[tactic(auto, unfolding(crate::specs::StepText::kept_line))]
fn put_kept<A: Allocator, N: Allocator, W: Allocator>(
    text: &mut String<A>,
    names: &Names<N>,
    kept: &Kept<W>,
) -> Result<(), Oom>
    ensures { OnOk result (string_bytes text.new ≡ string_bytes text.old ++ kept_line names.now kept.now) }
{
    let number = kept.number;
    write!(text, "{number} ")?;
    put_act(text, names, kept.node, &kept.step)?;
    Ok(text.push_str("\n")?)
}

/// Appends a line for each kept step, by rising number.
#[tactic(auto, unfolding(crate::specs::StepText::kept_lines))]
fn put_kepts<'a, A: Allocator, N: Allocator, B: Allocator>(
    journal: &Journal<'a, B>,
    text: &mut String<A>,
    names: &Names<N>,
) -> Result<(), Oom>
    ensures { OnOk result (string_bytes text.new ≡ string_bytes text.old ++ kept_lines names.now (kepts journal.now.steps)) }
{
    let mut steps = journal.steps();
    while let Some(kept) = steps.next() {
        put_kept(text, names, kept)?;
    }
    Ok(())
}

/// Appends `journal COUNT`, and then a line for each kept step, by rising number.
#[tactic(auto, unfolding(crate::specs::StepText::journal_text))]
pub fn put_journal<'a, A: Allocator, N: Allocator, B: Allocator>(
    journal: &Journal<'a, B>,
    text: &mut String<A>,
    names: &Names<N>,
) -> Result<(), Oom>
    ensures { OnOk result (string_bytes text.new ≡ string_bytes text.old ++ journal_text names.now (kepts journal.now.steps)) }
{
    let count = journal.len();
    writeln!(text, "journal {count}")?;
    put_kepts(journal, text, names)
}
