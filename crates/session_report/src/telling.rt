//! `report_session`: the bench of a session, and what its calls print.
ghost use Rattle.std.specs.Prelude.{◌≡◌, ◌↔◌, ◌++◌, List, Some, IfOk, IfErr, IsTrue, MatchResult, OnOk, map, option_map, slice_get, string_bytes};
ghost use Rattle.serde_json.specs.Data.{Data};
ghost use Rattle.bench_core.specs.Machine.{Machine};
ghost use Rattle.run_core.specs.Report.{after_command, call_of, command_text, commands_text, history_text};
ghost use Rattle.event_core.specs.Decoding.{event_at};
ghost use Rattle.recording_core.specs.Drafts.{AreRead};
ghost use Rattle.recording_core.specs.Sessions.{Asked, Faults, IsSaved, IsSession, Reads, Refuses, Steps};
ghost use Rattle.recording_core.specs.Versions.{number_of};
ghost use Rattle.recording_core.specs.declared.session_fault.SessionFault.TheVariants as sessions;

use bench_core::{Bench, Event, History, Reply};
use dots_core::Oom;
use report_core::act;
use run_core::Played;
use session_core::{Acts, SessionFault, Version, read_session};
use std::alloc::{Allocator, Global};

/// Whether the history has a call at `place`, and that call has this reply.
fn has_reply<'a, B: Allocator>(history: &History<'a, B>, place: usize, reply: Reply) -> bool
    ensures { IsTrue result ↔ (option_map (λ event. event.reply) (slice_get history.now place) ≡ Some reply) }
{
    match history.at(place) {
        Some(event) => event.reply.same(reply),
        None => false,
    }
}

/// Asks the event's call, appends what the call prints, and says whether the bench gave the event's reply and recorded
/// the call.
#[tactic(auto, unfolding(run_core::specs::Report::command_text, run_core::specs::Report::after_command))]
fn tell_next<'a, B: Allocator>(
    text: &mut String<&'a B>,
    bench: &mut Bench<'a, B>,
    event: &Event<&'a B>,
    alloc: &'a B,
) -> Result<bool, Oom>
    ensures asked { IfOk result (Asked event.now bench.old bench.new) }
    ensures bench { OnOk result (bench.new ≡ after_command bench.old (call_of event.now)) }
    ensures text { OnOk result (string_bytes text.new ≡ string_bytes text.old ++ command_text bench.old (call_of event.now)) }
{
    let place = bench.history().len();
    act(text, alloc, bench, event.actor, &event.act)?;
    Ok(has_reply(bench.history(), place, event.reply))
}

/// Asks the call of act `number`, appends what the call prints, and compares the reply. `BadShape`, before the call is
/// asked, if a text of this version can't have the call or its reply; `Disagrees` if the bench gives another reply, or
/// doesn't record the call.
fn tell_event<'a, B: Allocator>(
    text: &mut String<&'a B>,
    bench: &mut Bench<'a, B>,
    event: &Event<&'a B>,
    version: Version,
    number: u64,
    alloc: &'a B,
) -> Result<(), SessionFault>
    ensures steps { (d : Data) → event_at d ≡ Some event.now → Steps (number_of version) number bench.old d result bench.new }
    ensures bench { OnOk result (bench.new ≡ after_command bench.old (call_of event.now)) }
    ensures text { OnOk result (string_bytes text.new ≡ string_bytes text.old ++ command_text bench.old (call_of event.now)) }
{
    if !version.tells(event) {
        return Err(SessionFault::BadShape { act: number });
    }
    match tell_next(text, bench, event, alloc) {
        Ok(true) => Ok(()),
        Ok(false) => Err(SessionFault::Disagrees { act: number }),
        Err(_) => Err(SessionFault::OutOfMemory),
    }
}

/// Asks the calls of the events in `acts`, in order, up to the first fault, and appends what the calls print. If a
/// value that isn't an event follows the events, that value's `BadShape` comes after all other faults.
fn tell_events<'a, B: Allocator>(
    text: &mut String<&'a B>,
    bench: &mut Bench<'a, B>,
    acts: &Acts<&'a B>,
    version: Version,
    alloc: &'a B,
) -> Result<(), SessionFault>
    ensures ok { OnOk result ((ds : List Data) → AreRead ds acts.now.events.items acts.now.is_cut →
        Reads (number_of version) bench.old ds bench.new) }
    ensures text { OnOk result (string_bytes text.new ≡ string_bytes text.old ++ commands_text bench.old (map call_of acts.now.events.items)) }
    ensures err { IfErr result (λ fault. (ds : List Data) → AreRead ds acts.now.events.items acts.now.is_cut →
        Faults (number_of version) 1 bench.old ds fault) }
{
    for (place, event) in acts.events.iter().enumerate() {
        tell_event(text, bench, event, version, place as u64 + 1, alloc)?;
    }
    if acts.is_cut {
        let act = acts.events.len() as u64 + 1;
        return Err(SessionFault::BadShape { act });
    }
    Ok(())
}

/// The bench that `load` of `session_core` would give, and the report that `report_history` of `run_core` would give of
/// it; but each call is asked only once. `report_session` refuses what `load` refuses, in the same order. JSON values
/// and the list of events take their memory from the global heap.
pub fn report_session<'a, B: Allocator>(
    heap: Global,
    alloc: &'a B,
    bytes: &[u8],
) -> Result<Played<'a, B>, SessionFault>
    ensures session { IfOk result (λ told. IsSession bytes.now told.bench) }
    ensures report { IfOk result (λ told. told.report.items ≡ history_text told.bench) }
    ensures refused { IfErr result (Refuses bytes.now) }
    ensures comes_back { (m : Machine) → IsSaved bytes.now m → MatchResult result (λ told. told.bench ≡ m) (λ fault. fault ≡ sessions.OutOfMemory) }
{
    let recording = read_session(heap, alloc, bytes)?;
    let Ok(mut bench) = Bench::new(alloc, recording.names, recording.limits) else {
        return Err(SessionFault::OutOfMemory);
    };
    let mut text = String::new(alloc);
    let told = tell_events(
        &mut text,
        &mut bench,
        &recording.acts,
        recording.version,
        alloc,
    );
    if let Err(fault) = told {
        // form: drop before exit
        bench.discard();
        return Err(fault);
    }
    Ok(Played {
        bench,
        report: text.into_bytes(),
    })
}
