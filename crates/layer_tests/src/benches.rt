//! Benches from scripts: the calls that act lines ask for, and a bench that has played them.
use bench_core::{Act, Bench, History, Limits, Reply};
use grammar_core::{Script, acts, node_names, parse_script};
use std::alloc::Global;
use std::process::Abort;
use test_alloc::Refusing;

pub type Heap = Refusing<Global>;

/// The acts of a script, each with its actor.
pub type Calls<'a> = Vec<(u16, Act<&'a Heap>), &'a Heap>;

fn script_of<'a>(text: &str, heap: &'a Heap, rt: &impl Abort) -> Script<&'a Heap> {
    parse_script(heap, text.as_bytes()).expect(rt, text)
}

/// The calls that the script's lines ask for. Apart from the lines `nodes` and `consoles`, the script must have act
/// lines alone.
pub fn calls_of<'a>(text: &str, heap: &'a Heap, rt: &impl Abort) -> Calls<'a> {
    let script = script_of(text, heap, rt);
    let calls = acts(heap, &script);
    drop(script);
    calls.expect(rt, text)
}

/// A fresh bench of the script's nodes.
pub fn opened<'a>(text: &str, limits: Limits, heap: &'a Heap, rt: &impl Abort) -> Bench<'a, Heap> {
    let script = script_of(text, heap, rt);
    let names = node_names(&script).try_copy();
    drop(script);
    let names = names.expect(rt, "names");
    Bench::new(heap, names, limits).expect(rt, "a bench")
}

/// Makes the calls. The bench must refuse none.
pub fn ask<'a>(bench: &mut Bench<'a, Heap>, calls: &Calls<'a>, rt: &impl Abort) {
    for (actor, act) in calls {
        let reply = bench.act(*actor, act);
        holds!(rt, !matches!(reply, Reply::Refused(_)));
    }
}

/// A bench that has played the acts of the script and refused none.
pub fn played<'a>(text: &str, limits: Limits, heap: &'a Heap, rt: &impl Abort) -> Bench<'a, Heap> {
    let mut bench = opened(text, limits, heap, rt);
    let calls = calls_of(text, heap, rt);
    ask(&mut bench, &calls, rt);
    drop(calls);
    bench
}

/// Two benches that get the same calls: `bench` with memory refused, and `other` with memory.
#[derive(Drop)]
pub struct Pair<'a> {
    pub bench: Bench<'a, Heap>,
    pub other: Bench<'a, Heap>,
}

/// Two benches that have played the acts of the script and refused none.
pub fn played_twice<'a>(text: &str, limits: Limits, heap: &'a Heap, rt: &impl Abort) -> Pair<'a> {
    let bench = played(text, limits, heap, rt);
    let other = played(text, limits, heap, rt);
    Pair { bench, other }
}

/// The limits of these four values: on acts, and on a node's entries, clock and messages.
pub fn limits_of(limits: [u64; 4], rt: &impl Abort) -> Limits {
    let [acts, entries, clock, messages] = limits;
    Limits::new(acts, entries, clock, messages).expect(rt, "limits")
}

/// Whether both benches have the same nodes.
fn have_same_nodes<'a>(one: &Bench<'a, Heap>, other: &Bench<'a, Heap>) -> bool {
    for number in 0..32 {
        match (one.node(number), other.node(number)) {
            (Some(node), Some(same)) if node.same(same) => (),
            (None, None) => (),
            _ => return false,
        }
    }
    true
}

/// Whether both benches keep the same steps in the same order, each with the same number and node.
fn keep_same_steps<'a>(one: &Bench<'a, Heap>, other: &Bench<'a, Heap>) -> bool {
    let (steps, others) = (one.remaining(), other.remaining());
    for place in 0..steps.len() {
        match (steps.at(place), others.at(place)) {
            (Some(kept), Some(same))
                if kept.number == same.number
                    && kept.node == same.node
                    && kept.step.same(&same.step) => {}
            _ => return false,
        }
    }
    steps.len() == others.len()
}

/// Whether both histories have the same calls and replies, in the same order.
pub fn are_calls<'a>(history: &History<'a, Heap>, other: &History<'a, Heap>) -> bool {
    for place in 0..history.len() {
        match (history.at(place), other.at(place)) {
            (Some(event), Some(same))
                if event.actor == same.actor
                    && event.act.same(&same.act)
                    && event.reply == same.reply => {}
            _ => return false,
        }
    }
    history.len() == other.len()
}

/// Whether both benches have the same nodes, steps that remain, recorded calls and meter.
pub fn are_same<'a>(one: &Bench<'a, Heap>, other: &Bench<'a, Heap>) -> bool {
    have_same_nodes(one, other)
        && keep_same_steps(one, other)
        && are_calls(one.history(), other.history())
        && one.meter() == other.meter()
}
