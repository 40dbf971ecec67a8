//! `Version`: the form of a session's text.
ghost use Rattle.std.specs.Prelude.{◌≡◌, MatchOption};
ghost use Rattle.bench_core.specs.Acts.{plain_act};
ghost use Rattle.recording_core.specs.Versions.{IsVersion, is_first_action, is_first_reply, number_of, tells};

use bench_core::{Act, Event, Fault, Reply};
use node_core::Step;
use std::alloc::Allocator;

/// The version of a session's text. Version 1 has no requests and no answers, and neither of the refusals
/// `NotRequest` (of an answer) and `IsRequest` (of a delivery of a request).
#[derive(Clone, Copy)]
pub enum Version {
    First,
    Second,
}

/// Whether a text of version 1 can have the act.
fn is_first_act<A: Allocator>(act: &Act<A>) -> bool
    ensures { result ≡ is_first_action (plain_act act.now) }
{
    !matches!(act, Act::Do(Step::Request | Step::Answer { .. }))
}

/// Whether a text of version 1 can have the reply.
fn is_first_reply(reply: Reply) -> bool
    ensures { result ≡ is_first_reply reply }
{
    !matches!(reply, Reply::Refused(Fault::NotRequest | Fault::IsRequest))
}

impl Version {
    /// The version with this number; `None` if there is none.
    pub(crate) fn of_number(number: u64) -> Option<Version>
        ensures { MatchOption result (¬ IsVersion number) (λ version. number_of version ≡ number) }
    {
        match number {
            1 => Some(Version::First),
            2 => Some(Version::Second),
            _ => None,
        }
    }

    /// Whether a text of this version can have the event.
    pub fn tells<A: Allocator>(self, event: &Event<A>) -> bool
        ensures { result ≡ tells (number_of self) event.now }
    {
        match self {
            Version::First => is_first_act(&event.act) && is_first_reply(event.reply),
            Version::Second => true,
        }
    }
}
