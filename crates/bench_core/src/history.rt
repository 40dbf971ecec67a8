//! `History`: the calls that were recorded, each with its reply.
ghost use Rattle.std.specs.Prelude.{◌≡◌, [], IfOk, OnOk, OnErr, option_copied, slice_get, length};
ghost use Rattle.bench_core.specs.Acts.{plain_act};
ghost use Rattle.bench_core.specs.Histories.{note, IsAnswered, IsForgotten};

use crate::act::Act;
use crate::reply::Reply;
use dots_core::Oom;
use std::alloc::Allocator;
use std::marker::Model;

/// A recorded call of the bench: who asked, what, and what was answered.
#[derive(Drop)]
pub struct Event<A: Allocator> {
    pub actor: u16,
    pub act: Act<A>,
    pub reply: Reply,
}

impl<A: Allocator> Model for Event<A> {
    ghost use Rattle.bench_core.specs.Acts.{plain_act};
    ghost use Rattle.bench_core.specs.Machine.{Event, event_code};
    ghost use Rattle.bench_core.specs.contracts.reply.Reply.{the_row as reply_row};

    ghost Value = { Event };

    ghost coded = { event_code reply_row.coded };

    ghost view = { λ e. record { actor = e.actor; act = plain_act e.act; reply = e.reply } };
}

impl<A: Allocator + Copy> Event<A> {
    fn try_copy(&self) -> Result<Self, Oom>
        ensures { IfOk result (λ copy. copy ≡ self.now) }
    {
        Ok(Event {
            actor: self.actor,
            act: self.act.try_copy()?,
            reply: self.reply,
        })
    }
}

/// The recorded calls, oldest first. A contract sees the list of them.
#[derive(Drop)]
pub struct History<'a, B: Allocator> {
    events: Vec<Event<&'a B>, &'a B>,
}

impl<'a, B: Allocator> Model for History<'a, B> {
    ghost use Rattle.std.specs.Prelude.{List};
    ghost use Rattle.std.specs.Coded.{coded_list};
    ghost use Rattle.bench_core.specs.Machine.{Event, event_code};
    ghost use Rattle.bench_core.specs.contracts.reply.Reply.{the_row as reply_row};

    ghost Value = { List Event };

    ghost coded = { coded_list (event_code reply_row.coded) };

    ghost view = { λ h. h.events.items };
}

impl<'a, B: Allocator> History<'a, B> {
    pub(crate) fn new(alloc: &'a B) -> Self
        ensures { result ≡ [] }
    {
        History {
            events: Vec::new(alloc),
        }
    }

    /// How many calls were recorded.
    pub fn len(&self) -> usize
        ensures { result ≡ length self.now }
    {
        self.events.len()
    }

    /// The call at `place`, counted from 0, the oldest first; `None` past the last.
    pub fn at(&self, place: usize) -> Option<&Event<&'a B>>
        ensures { option_copied result ≡ slice_get self.now place }
    {
        self.events.get(place)
    }

    /// A copy of the history, made with the same allocator.
    pub fn try_copy(&self) -> Result<Self, Oom>
        ensures { IfOk result (λ copy. copy ≡ self.now) }
    {
        let mut events = Vec::with_capacity(*self.events.allocator(), self.len())?;
        for event in &self.events {
            let Ok(copy) = event.try_copy() else {
                // form: drop before exit
                drop(events);
                return Err(Oom);
            };
            events.push_reserved(copy);
        }
        Ok(History { events })
    }

    /// Records a call with this reply, after the others. If memory is refused, nothing is recorded.
    pub(crate) fn record(&mut self, actor: u16, act: &Act<&'a B>, reply: Reply) -> Result<(), Oom>
        ensures ok { OnOk result (self.new ≡ note actor (plain_act act.now) reply self.old) }
        ensures err { OnErr result (self.new ≡ self.old) }
    {
        let act = act.try_copy()?;
        self.events.push(Event { actor, act, reply })?;
        Ok(())
    }

    /// Replaces the reply of the last recorded call, if there is one. It takes no memory.
    pub(crate) fn answer_last(&mut self, reply: Reply)
        ensures { IsAnswered reply self.old self.new }
    {
        // form: taken out for the edit, and put back
        if let Some(event) = self.events.pop() {
            self.events.push_reserved(Event { reply, ..event });
        }
    }

    /// Drops the call that was recorded last, if there is one.
    pub(crate) fn forget_last(&mut self)
        ensures { IsForgotten self.old self.new }
    {
        drop(self.events.pop());
    }
}
