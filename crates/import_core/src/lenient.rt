//! For logs that begin in the middle of an incident: leaves out, round by round, each event that waits for a message
//! which none of the rest sends. The parameter `messages` is the count of numbered messages, and bounds their numbers.
ghost use Rattle.std.specs.Prelude.{◌≡◌, ◌<◌, ◌++◌, ◌∷◌, [], ◌==◌, ◌||◌, ℕ, not, length, map, slice_index_or, false, IfOk, IfSome, OnOk};
ghost use Rattle.std.specs.List.{AllByRecursion};
ghost use Rattle.import_core.specs.Lenient.{IsLenient, Stay, gone, has_awaited, is_message, is_sent, lines_gone, staying};
ghost use Rattle.import_core.specs.Notes.{note_of};

use crate::notes::Noted;
use dots_core::Oom;
use std::alloc::Allocator;

/// Sets the flag in `sent` of the message that an event sends; sets none if `sends` is `None`.
fn mark<A: Allocator>(sent: &mut Vec<bool, A>, sends: Option<usize>)
    requires { IfSome sends (λ m. m < length sent.old.items) }
    ensures all { length sent.new.items ≡ length sent.old.items }
    ensures marks { (m : ℕ) → slice_index_or sent.new.items m false ≡ (slice_index_or sent.old.items m false || is_message m sends) }
{
    if let Some(message) = sends {
        sent[message] = true;
    }
}

/// For each message, by number, whether one of the events sends it.
fn sent_by<A: Allocator + Copy>(
    alloc: A,
    notes: &[Noted<A>],
    messages: usize,
) -> Result<Vec<bool, A>, Oom>
    requires { AllByRecursion (λ n. IfSome n.logged.sends (λ m. m < messages)) (map note_of notes.now) }
    ensures { IfOk result (λ sent. (m : ℕ) → slice_index_or sent.items m false ≡ is_sent (map note_of notes.now) m) }
{
    let mut sent = vec![in alloc; false; messages]?;
    for note in notes {
        mark(&mut sent, note.logged.sends);
    }
    Ok(sent)
}

/// Whether the event waits for no message, or for one whose flag in `sent` is set.
fn can_stay<A: Allocator>(note: &Noted<A>, sent: &[bool]) -> bool
    ensures { result ≡ has_awaited (λ m. slice_index_or sent.now m false) (note_of note.now).logged.waits }
{
    match note.logged.waits {
        None => true,
        Some(message) => sent.get(message).copied().unwrap_or(false),
    }
}

/// Appends the number of the event's line to `left_out`, unless the event can stay.
fn add_gone<A: Allocator>(
    left_out: &mut Vec<u64, A>,
    note: &Noted<A>,
    sent: &[bool],
) -> Result<(), Oom>
    ensures { OnOk result (left_out.new.items ≡ left_out.old.items ++ lines_gone (λ m. slice_index_or sent.now m false) (note_of note.now ∷ [])) }
{
    if !can_stay(note, sent) {
        left_out.push(note.number)?;
    }
    Ok(())
}

/// Appends the line numbers of the events that can't stay to `left_out`. `sent` must have the flags that `sent_by`
/// gives for `notes`.
fn note_gone<A: Allocator>(
    left_out: &mut Vec<u64, A>,
    notes: &[Noted<A>],
    sent: &[bool],
) -> Result<(), Oom>
    requires { (m : ℕ) → slice_index_or sent.now m false ≡ is_sent (map note_of notes.now) m }
    ensures { OnOk result (left_out.new.items ≡ left_out.old.items ++ gone (map note_of notes.now)) }
{
    for note in notes {
        add_gone(left_out, note, sent)?;
    }
    Ok(())
}

/// Makes one round: takes out of `notes` each event that waits for a message which no event in `notes` sends, appends
/// the event's line number to `left_out`, and says whether there was such an event.
fn let_go<A: Allocator + Copy>(
    alloc: A,
    notes: &mut Vec<Noted<A>, A>,
    left_out: &mut Vec<u64, A>,
    messages: usize,
) -> Result<bool, Oom>
    requires { AllByRecursion (λ n. IfSome n.logged.sends (λ m. m < messages)) (map note_of notes.old.items) }
    ensures notes { OnOk result (map note_of notes.new.items ≡ staying (map note_of notes.old.items)) }
    ensures left_out { OnOk result (left_out.new.items ≡ left_out.old.items ++ gone (map note_of notes.old.items)) }
    ensures any { IfOk result (λ any. any ≡ not (length (gone (map note_of notes.old.items)) == 0)) }
{
    let sent = sent_by(alloc, notes, messages)?;
    let before = left_out.len();
    note_gone(left_out, notes, &sent)?;
    notes.retain(|note| can_stay(note, &sent));
    Ok(left_out.len() != before)
}

/// Makes rounds with `let_go` until one takes nothing out of `notes`; then each message that an event in `notes` waits
/// for is sent by an event in `notes`. Gives the line numbers of the events that were taken out.
fn leave_out<A: Allocator + Copy>(
    alloc: A,
    notes: &mut Vec<Noted<A>, A>,
    messages: usize,
) -> Result<Vec<u64, A>, Oom>
    requires { AllByRecursion (λ n. IfSome n.logged.sends (λ m. m < messages)) (map note_of notes.old.items) }
    ensures { IfOk result (λ left_out. IsLenient (map note_of notes.old.items) (map note_of notes.new.items) left_out.items) }
{
    let mut left_out = Vec::new(alloc);
    // form: the proof names the loop
    'rounds: loop {
        if !let_go(alloc, notes, &mut left_out, messages)? {
            break;
        }
    }
    Ok(left_out)
}

/// Like `leave_out`, but leaves out nothing if not `lenient`.
pub(crate) fn stay<A: Allocator + Copy>(
    alloc: A,
    lenient: bool,
    notes: &mut Vec<Noted<A>, A>,
    messages: usize,
) -> Result<Vec<u64, A>, Oom>
    requires { AllByRecursion (λ n. IfSome n.logged.sends (λ m. m < messages)) (map note_of notes.old.items) }
    ensures { IfOk result (λ left_out. Stay lenient (map note_of notes.old.items) (map note_of notes.new.items) left_out.items) }
{
    if !lenient {
        return Ok(Vec::new(alloc));
    }
    leave_out(alloc, notes, messages)
}
