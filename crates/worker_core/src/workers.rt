//! The workers of a race, one thread for each actor that has a line.
use crate::gate::Gate;
use bench_core::{Act, Bench};
use crossbeam_channel::{Receiver, Sender};
use dots_core::Oom;
use receipt_core::{Receipt, WorkersFault, ask};
use std::alloc::Allocator;
use std::sync::{Mutex, Wait};
use std::thread;
use std::thread::{JoinHandle, Scope, Threads};

// form: generic over act and receipt, as a thread's closure gets no proof if its types name the bench's lifetime
/// What workers share under a lock: in `race`, the bench. `ask_line` asks `self` the act of an actor's line, and gives
/// the receipt.
pub(crate) trait Shared<L, T> {
    fn ask_line(&mut self, actor: u16, number: u64, act: L) -> T;
}

impl<'a, B: Allocator> Shared<Act<&'a B>, Receipt<&'a B>> for Bench<'a, B> {
    fn ask_line(&mut self, actor: u16, number: u64, act: Act<&'a B>) -> Receipt<&'a B> {
        ask(self, actor, number, act)
    }
}

/// A line as its worker gets it: its number, counted from 1, and its act.
#[derive(Drop)]
struct Line<L> {
    number: u64,
    act: L,
}

/// What a worker gets: its actor, the end of a channel from which it takes the actor's lines, and room for a receipt of
/// each line.
#[derive(Drop)]
struct Slot<L, T, A: Allocator + Clone> {
    actor: u16,
    lines: Receiver<Line<L>, A>,
    receipts: Vec<T, A>,
}

/// The channels to the slots, by actor; `None` for an actor without a line.
type Channels<L, A> = Vec<Option<Sender<Line<L>, A>>, A>;

/// The workers, by actor; `None` for an actor without a line.
type Workers<T, A> = Vec<Option<JoinHandle<Vec<T, A>>>, A>;

/// All that workers need memory for: the slots and the channels to them, by actor, and room for the workers and for the
/// list of lists of their receipts.
#[derive(Drop)]
struct Prepared<L, T, A: Allocator + Clone> {
    slots: Vec<Option<Slot<L, T, A>>, A>,
    channels: Channels<L, A>,
    workers: Workers<T, A>,
    lists: Vec<Vec<T, A>, A>,
}

/// Makes one call under the lock, which is held for this call alone.
fn ask_alone<L, T, S: Shared<L, T>, R: Wait>(
    rt: &R,
    shared: &Mutex<S>,
    actor: u16,
    number: u64,
    act: L,
) -> T {
    let mut guard = shared.lock(rt);
    let bench = &mut *guard;
    bench.ask_line(actor, number, act)
}

/// Asks each line that it takes from the slot's channel, between the two calls of the gate, until the channel is closed
/// and empty. Gives the receipts, for which the slot has room; if one were lost, `agree` would be false.
fn work<L: Drop, T: Drop, A: Allocator + Clone, S: Shared<L, T>, G: Gate, R: Wait>(
    rt: &R,
    shared: &Mutex<S>,
    gate: &G,
    slot: Slot<L, T, A>,
) -> Vec<T, A> {
    let Slot {
        actor,
        lines,
        mut receipts,
    } = slot;
    // form: stands for a `loop`, as the loop needn't end
    for _ in rt.forever() {
        let Ok(Line { number, act }) = lines.recv(rt) else {
            break;
        };
        gate.before(actor, number);
        let receipt = ask_alone(rt, shared, actor, number, act);
        gate.after(actor, number);
        let _ = receipts.push(receipt);
    }
    receipts
}

/// Starts a worker that asks the lines of `slot`; `WorkerRefused` if no thread can be started for it.
fn start<
    's,
    E,
    L: Drop + Send + 's,
    T: Drop + Send + 's,
    A: Allocator + Clone + Send + Sync + 's,
    S: Shared<L, T> + Send + 's,
    G: Gate + Sync + 's,
    R: Threads + Wait + Sync + 's,
>(
    rt: &'s R,
    scope: &Scope<'s, E>,
    shared: &'s Mutex<S>,
    gate: &'s G,
    slot: Slot<L, T, A>,
) -> Result<JoinHandle<Vec<T, A>>, WorkersFault> {
    scope
        .spawn(move || work(rt, shared, gate, slot))
        .map_err(|_| WorkersFault::WorkerRefused)
}

/// Starts a worker for each slot, and appends the worker to `workers`, or `None` for an actor without a slot.
/// `WorkerRefused` at the first that can't be started; none is started after it.
fn start_all<
    's,
    E,
    L: Drop + Send + 's,
    T: Drop + Send + 's,
    A: Allocator + Copy + Send + Sync + 's,
    S: Shared<L, T> + Send + 's,
    G: Gate + Sync + 's,
    R: Threads + Wait + Sync + 's,
>(
    rt: &'s R,
    scope: &Scope<'s, E>,
    shared: &'s Mutex<S>,
    gate: &'s G,
    slots: Vec<Option<Slot<L, T, A>>, A>,
    mut workers: Workers<T, A>,
) -> Result<Workers<T, A>, WorkersFault> {
    for slot in slots {
        let worker = match slot {
            Some(slot) => Some(start(rt, scope, shared, gate, slot)?),
            None => None,
        };
        // form: there is room (`make_room`), so this push isn't refused
        let Ok(()) = workers.push(worker) else {
            return Err(WorkersFault::OutOfMemory);
        };
    }
    Ok(workers)
}

/// Waits for the workers, and appends the list of each one's receipts to `lists`; an empty list for an actor without a
/// worker.
fn join_all<T: Drop, A: Allocator + Copy, R: Threads>(
    rt: &R,
    alloc: A,
    workers: Workers<T, A>,
    mut lists: Vec<Vec<T, A>, A>,
) -> Result<Vec<Vec<T, A>, A>, WorkersFault> {
    for worker in workers {
        let list = match worker {
            Some(worker) => worker.join(rt),
            None => Vec::new(alloc),
        };
        // form: there is room (`make_room`), so this push isn't refused
        let Ok(()) = lists.push(list) else {
            return Err(WorkersFault::OutOfMemory);
        };
    }
    Ok(lists)
}

/// How many of the lines are the actor's.
fn count_lines<L>(lines: &[(u16, L)], actor: u16) -> usize {
    lines.iter().filter(|(other, _)| *other == actor).count()
}

/// A slot with room for `count` lines of the actor and a receipt of each, and the channel to the slot.
fn slot_of<L: Drop, T: Drop, A: Allocator + Copy>(
    alloc: A,
    actor: u16,
    count: usize,
) -> Result<(Slot<L, T, A>, Sender<Line<L>, A>), Oom> {
    let (channel, lines) = crossbeam_channel::bounded(alloc, count)?;
    let receipts = Vec::with_capacity(alloc, count)?;
    let slot = Slot {
        actor,
        lines,
        receipts,
    };
    Ok((slot, channel))
}

/// The slot of an actor with `count` lines, and the channel to it; `None` for both if `count` is 0.
fn slot_if<L: Drop, T: Drop, A: Allocator + Copy>(
    alloc: A,
    actor: u16,
    count: usize,
) -> Result<(Option<Slot<L, T, A>>, Option<Sender<Line<L>, A>>), Oom> {
    if count == 0 {
        return Ok((None, None));
    }
    let (slot, channel) = slot_of(alloc, actor, count)?;
    Ok((Some(slot), Some(channel)))
}

/// Asks for room in `prepared` for the workers of `actors` actors and for their lists.
fn make_room<L: Drop, T: Drop, A: Allocator + Copy>(
    prepared: &mut Prepared<L, T, A>,
    actors: usize,
) -> Result<(), Oom> {
    prepared.workers.reserve(actors)?;
    prepared.lists.reserve(actors)?;
    Ok(())
}

/// Adds to `prepared` the slot of an actor with `count` lines, and the channel to it; `None` for both if `count` is 0.
fn add_slot<L: Drop, T: Drop, A: Allocator + Copy>(
    prepared: &mut Prepared<L, T, A>,
    alloc: A,
    actor: u16,
    count: usize,
) -> Result<(), Oom> {
    let (slot, channel) = slot_if(alloc, actor, count)?;
    prepared.slots.push(slot)?;
    prepared.channels.push(channel)?;
    Ok(())
}

/// Asks for room in `prepared` for the workers and lists of all actors. Adds a slot and its channel for each actor that
/// has a line, and `None` for the others.
fn fill<L: Drop, T: Drop, A: Allocator + Copy>(
    prepared: &mut Prepared<L, T, A>,
    alloc: A,
    actors: u16,
    lines: &[(u16, L)],
) -> Result<(), Oom> {
    make_room(prepared, usize::from(actors))?;
    for actor in 0..actors {
        add_slot(prepared, alloc, actor, count_lines(lines, actor))?;
    }
    Ok(())
}

/// All that workers need memory for: a slot for each actor that has a line, and room for all its lines and receipts.
fn prepared_for<L: Drop, T: Drop, A: Allocator + Copy>(
    alloc: A,
    actors: u16,
    lines: &[(u16, L)],
) -> Result<Prepared<L, T, A>, Oom> {
    let mut prepared = Prepared {
        slots: Vec::new(alloc),
        channels: Vec::new(alloc),
        workers: Vec::new(alloc),
        lists: Vec::new(alloc),
    };
    if fill(&mut prepared, alloc, actors, lines).is_err() {
        // form: drop before exit
        drop(prepared);
        return Err(Oom);
    }
    Ok(prepared)
}

/// Sends each line to its worker, with the line's number, counted from 1. If a line were lost, its receipt would be
/// missing, and `agree` false. The channels are dropped at the end, so the workers know that no more lines come.
fn send_all<L: Drop, A: Allocator + Clone, R: Wait>(
    rt: &R,
    channels: Channels<L, A>,
    lines: Vec<(u16, L), A>,
) {
    let mut number = 0u64;
    for (actor, act) in lines {
        // form: saturating spares a requirement
        number = number.saturating_add(1);
        if let Some(Some(channel)) = channels.get(usize::from(actor)) {
            let _ = channel.send(rt, Line { number, act });
        }
    }
}

/// Starts a worker for each actor that has a line, lets it ask the actor's lines, and gives the receipts by actor. All
/// memory is asked for before the first worker is started, and no line is sent before all workers are started. If one
/// of them can't be started, no line is asked.
pub(crate) fn ask_all<
    L: Drop + Send,
    T: Drop + Send,
    A: Allocator + Copy + Send + Sync,
    S: Shared<L, T> + Send,
    G: Gate + Sync,
    R: Threads + Wait + Sync,
>(
    rt: &R,
    alloc: A,
    shared: &Mutex<S>,
    actors: u16,
    lines: Vec<(u16, L), A>,
    gate: &G,
) -> Result<Vec<Vec<T, A>, A>, WorkersFault> {
    let Prepared {
        slots,
        channels,
        workers,
        lists,
    } = prepared_for(alloc, actors, &lines)?;
    thread::scope(thread::scope_env(), rt, move |scope| {
        let workers = start_all(rt, scope, shared, gate, slots, workers)?;
        send_all(rt, channels, lines);
        join_all(rt, alloc, workers, lists)
    })
}
