//! The words that stand beside a call in the picture, and the title of the mark that is drawn for it.
ghost use Rattle.std.specs.Prelude.{◌≡◌, ◌++◌, IfOk, OnOk, string_bytes};
ghost use Rattle.report_core.specs.ActRows.{acted_text};
ghost use Rattle.picture_core.specs.Words.{reply_words, row_words, title_told, words_told};

use bench_core::{Event, Reply};
use diff_core::OnlineRow;
use dots_core::Oom;
use report_core::{Acted, put_acted};
use std::alloc::Allocator;
use transcript_core::{CastRef, put_call};

/// Appends the words for a reply after two spaces: `undone N` with the number of the step, or `no` and the fault. For a
/// step that was taken it appends nothing, as the step's number stands left of the lanes.
fn put_reply_words<A: Allocator>(text: &mut String<A>, reply: Reply) -> Result<(), Oom>
    ensures { OnOk result (string_bytes text.new ≡ string_bytes text.old ++ reply_words reply) }
{
    match reply {
        Reply::Taken(_) => Ok(()),
        Reply::Undone(number) => Ok(write!(text, "  undone {number}")?),
        Reply::Refused(fault) => Ok(write!(text, "  no {fault}")?),
    }
}

/// Appends the words for rows of an online list: nothing if there are none; `sign` and the row's topic and key if there
/// is one; `sign` and how many they are if there are several. Two spaces come before `sign`.
fn put_row_words<A: Allocator, R: Allocator>(
    text: &mut String<A>,
    sign: &str,
    rows: &[OnlineRow<R>],
) -> Result<(), Oom>
    ensures { OnOk result (string_bytes text.new ≡ string_bytes text.old ++ row_words sign.now rows.now) }
{
    match rows {
        [] => Ok(()),
        [row] => {
            let topic = row.topic.as_str();
            let key = row.key.as_str();
            Ok(write!(text, "  {sign}{topic} {key}")?)
        }
        _ => {
            let count = rows.len();
            Ok(write!(text, "  {sign}{count}")?)
        }
    }
}

/// The words beside a call in the picture: the call as a line of a script, the words for its reply, and those for what
/// left and joined the online list of the node that the call changed.
#[tactic(auto, unfolding(crate::specs::Words::words_told))]
pub fn words_of<'a, B: Allocator, N: Allocator, C: Allocator>(
    event: &Event<&'a B>,
    cast: &CastRef<'_, N, C>,
    acted: &Acted<&'a B>,
    alloc: &'a B,
) -> Result<String<&'a B>, Oom>
    ensures { IfOk result (λ words. string_bytes words ≡
        words_told cast.now.nodes.now cast.now.consoles.now event.now acted.now.change.left.items acted.now.change.joined.items) }
{
    let mut words = String::new(alloc);
    put_call(&mut words, cast, event.actor, &event.act)?;
    put_reply_words(&mut words, event.reply)?;
    put_row_words(&mut words, "-", &acted.change.left)?;
    put_row_words(&mut words, "+", &acted.change.joined)?;
    Ok(words)
}

/// The call as a line of a script and, from the next line on, what the call printed.
#[tactic(auto, unfolding(crate::specs::Words::title_told))]
pub fn title_of<'a, B: Allocator, N: Allocator, C: Allocator>(
    event: &Event<&'a B>,
    cast: &CastRef<'_, N, C>,
    acted: &Acted<&'a B>,
    alloc: &'a B,
) -> Result<String<&'a B>, Oom>
    ensures { IfOk result (λ title. string_bytes title ≡
        title_told cast.now.nodes.now cast.now.consoles.now event.now
        (acted_text cast.now.nodes.now acted.now.reply acted.now.change.left.items acted.now.change.joined.items)) }
{
    let mut title = String::new(alloc);
    put_call(&mut title, cast, event.actor, &event.act)?;
    title.push_str("\n")?;
    put_acted(&mut title, cast.nodes, acted)?;
    Ok(title)
}
