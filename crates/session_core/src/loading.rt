//! `load`: the bench of a session, opened with the session's names and limits and asked its calls again.
ghost use Rattle.std.specs.Prelude.{◌≡◌, List, Some, IfOk, OnOk, IfErr};
ghost use Rattle.serde_json.specs.Data.{Data};
ghost use Rattle.bench_core.specs.Machine.{Machine};
ghost use Rattle.event_core.specs.Decoding.{event_at};
ghost use Rattle.recording_core.specs.Drafts.{AreRead};
ghost use Rattle.recording_core.specs.Versions.{number_of};
ghost use Rattle.recording_core.specs.Sessions.{Asked, Steps, Reads, Faults, Refuses, ComesBack, IsSaved, IsSession};

use bench_core::{Bench, Event, Fault, Reply};
use dots_core::Oom;
use recording_core::{Acts, Recording, SessionFault, Version, read_session};
use std::alloc::{Allocator, Global};

/// Asks the bench the event's call, and says whether the bench gave the event's reply and recorded the call. `Oom` if
/// the bench refuses the call as `OutOfMemory`.
fn records_next<'a, B: Allocator>(
    bench: &mut Bench<'a, B>,
    event: &Event<&'a B>,
) -> Result<bool, Oom>
    ensures { IfOk result (Asked event.now bench.old bench.new) }
{
    let before = bench.history().len();
    let reply = bench.act(event.actor, &event.act);
    if reply.same(Reply::Refused(Fault::OutOfMemory)) {
        return Err(Oom);
    }
    if reply.same(event.reply) {
        return Ok(before < bench.history().len());
    }
    Ok(false)
}

/// Asks the call of act `number`, and compares the reply. `BadShape`, before the call is asked, if a text of this
/// version can't have the call or its reply; `Disagrees` if the bench gives another reply, or doesn't record the call.
fn take_event<'a, B: Allocator>(
    bench: &mut Bench<'a, B>,
    event: &Event<&'a B>,
    version: Version,
    number: u64,
) -> Result<(), SessionFault>
    ensures { (d : Data) → event_at d ≡ Some event.now → Steps (number_of version) number bench.old d result bench.new }
{
    if !version.tells(event) {
        return Err(SessionFault::BadShape { act: number });
    }
    match records_next(bench, event) {
        Ok(true) => Ok(()),
        Ok(false) => Err(SessionFault::Disagrees { act: number }),
        Err(_) => Err(SessionFault::OutOfMemory),
    }
}

/// Asks the calls of the events in `acts`, in order, up to the first fault. If a value that isn't an event follows the
/// events, that value's `BadShape` comes after all other faults.
fn take_events<'a, B: Allocator>(
    bench: &mut Bench<'a, B>,
    acts: &Acts<&'a B>,
    version: Version,
) -> Result<(), SessionFault>
    ensures ok { OnOk result ((ds : List Data) → AreRead ds acts.now.events.items acts.now.is_cut →
        Reads (number_of version) bench.old ds bench.new) }
    ensures err { IfErr result (λ fault. (ds : List Data) → AreRead ds acts.now.events.items acts.now.is_cut →
        Faults (number_of version) 1 bench.old ds fault) }
{
    for (place, event) in acts.events.iter().enumerate() {
        take_event(bench, event, version, place as u64 + 1)?;
    }
    if acts.is_cut {
        let act = acts.events.len() as u64 + 1;
        return Err(SessionFault::BadShape { act });
    }
    Ok(())
}

/// The bench of a session, of either version: it is opened with the session's names and limits, and asked the session's
/// calls in order. The bench has to give each reply that is in the text, and to record the call. If an object has two
/// equal keys, the last one counts. The refusals come in this order: `NotJson`; `BadShape {act: 0}` if there is no
/// whole number at `version`; `BadVersion` if that is neither 1 nor 2; `BadShape {act: 0}` for the rest of the head
/// (all but the acts); then, act by act, `BadShape` before `Disagrees`. `OutOfMemory` may come before any of these.
/// Only the second version has requests, answers, `NotRequest` and `IsRequest`. Each act's JSON is dropped once its
/// event is known. JSON values and the list of events take their memory from the global heap.
pub fn load<'a, B: Allocator>(
    heap: Global,
    alloc: &'a B,
    bytes: &[u8],
) -> Result<Bench<'a, B>, SessionFault>
    ensures session { IfOk result (IsSession bytes.now) }
    ensures refused { IfErr result (Refuses bytes.now) }
    ensures comes_back { (m : Machine) → IsSaved bytes.now m → ComesBack m result }
{
    let Recording {
        version,
        limits,
        names,
        acts,
    } = read_session(heap, alloc, bytes)?;
    let Ok(mut bench) = Bench::new(alloc, names, limits) else {
        // form: drop before exit
        drop(acts);
        return Err(SessionFault::OutOfMemory);
    };
    let taken = take_events(&mut bench, &acts, version);
    drop(acts);
    if let Err(fault) = taken {
        bench.discard();
        return Err(fault);
    }
    Ok(bench)
}
