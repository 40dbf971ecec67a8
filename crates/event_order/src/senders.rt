//! Which messages are sent, and the first event that sends one again or waits for one that is never sent.
ghost use Rattle.std.specs.Prelude.{Some, length, MatchOption, MatchResult};
ghost use Rattle.event_order.specs.Ordering.{HasMessages, IsTwiceAt, IsNeverSentAt, NoTwice, AllSent};
ghost use Rattle.event_order.specs.Walks.{IsSentUpTo};

use crate::logged::Logged;

/// Marks in `sent` the messages that the events send. The error is the place of the first event that sends a message
/// again; then only the messages of the events before it are marked.
pub(crate) fn mark_senders(events: &[Logged], sent: &mut [bool]) -> Result<(), usize>
    requires messages { HasMessages (length sent.old) events.now }
    requires none { IsSentUpTo events.now 0 sent.old }
    ensures { MatchResult result (λ _. IsSentUpTo events.now (length events.now) sent.new × NoTwice events.now) (λ at. IsTwiceAt events.now at) }
{
    for (place, event) in events.iter().enumerate() {
        if let Some(message) = event.sends {
            if sent[message] {
                return Err(place);
            }
            sent[message] = true;
        }
    }
    Ok(())
}

/// The place of the first event that waits for a message that no event sends; `None` if there is none.
pub(crate) fn never_sent(events: &[Logged], sent: &[bool]) -> Option<usize>
    requires messages { HasMessages (length sent.now) events.now }
    requires sent { IsSentUpTo events.now (length events.now) sent.now }
    ensures { MatchOption result (AllSent events.now) (λ at. IsNeverSentAt events.now at) }
{
    for (place, event) in events.iter().enumerate() {
        if let Some(message) = event.waits {
            if !sent[message] {
                return Some(place);
            }
        }
    }
    None
}
