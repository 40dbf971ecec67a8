//! What the network could have done: the outcomes of small runs, worked by hand, each with a run that leads to it; what
//! is refused; requests for memory refused in turn; and what a watcher is told. A run is given by its steps' places in
//! the recorded run, counted from 0.
use crate::benches::{Heap, limits_of, played};
use crate::wide;
use bench_core::{Bench, Cluster, Limits};
use dots_core::Dot;
use explore_network::{Bounds, ExploreFault, Explored, Outcome, Question, explore};
use payload_core::Word;
use progress_core::{Silent, Walked, Watch};
use std::process::Abort;
use test_alloc::Refusing;

const UP_LATE: &str = "nodes a b
a join 1 r x phone
a broadcast
b up a
b deliver a 1";

const GONE: &str = "nodes a b
b up a
a join 1 r x phone
a broadcast
b deliver a 1
a leave 1 r x
a broadcast
b deliver a 2";

const ANSWERED: &str = "nodes a b c
b up a
c up a
a join 1 r x phone
a broadcast
b deliver a 1
c deliver a 1
b request
a answer b 1
b deliver a 2";

const BOTH: &str = "nodes a b c
a join 1 r x phone
a broadcast
b up a
c up a
b deliver a 1
c deliver a 1";

/// A case: a script; the node whose rows of topic `r` and key `x` are asked for; how many deliveries may be lost, and
/// how many may come again; and a run for each outcome.
struct Case {
    text: &'static str,
    node: u16,
    lost: usize,
    again: usize,
    runs: &'static [&'static [usize]],
}

/// The cases in turn: an up changes nothing at another node; an up comes before or after a delivery; a message is lost;
/// a leave is delivered before its sender is known, and the join afterwards, so that the join stays; the same with a
/// delivery that comes again; an answer brings what was missed to the node that asked, and not to another.
const CASES: &[Case] = &[
    Case {
        text: UP_LATE,
        node: 0,
        lost: 0,
        again: 0,
        runs: &[&[0, 1, 2, 3]],
    },
    Case {
        text: UP_LATE,
        node: 1,
        lost: 0,
        again: 0,
        runs: &[&[0, 1, 2, 3], &[0, 1, 3, 2]],
    },
    Case {
        text: UP_LATE,
        node: 1,
        lost: 1,
        again: 0,
        runs: &[&[0, 1, 2, 3], &[0, 1, 2]],
    },
    Case {
        text: GONE,
        node: 1,
        lost: 0,
        again: 0,
        runs: &[&[0, 1, 2, 3, 4, 5, 6], &[1, 2, 4, 5, 6, 0, 3]],
    },
    Case {
        text: GONE,
        node: 1,
        lost: 0,
        again: 1,
        runs: &[&[0, 1, 2, 3, 4, 5, 6], &[1, 2, 4, 5, 3, 6, 0, 3]],
    },
    Case {
        text: ANSWERED,
        node: 1,
        lost: 0,
        again: 0,
        runs: &[&[0, 1, 2, 3, 4, 5, 6, 7, 8]],
    },
    Case {
        text: ANSWERED,
        node: 2,
        lost: 0,
        again: 0,
        runs: &[&[0, 1, 2, 3, 4, 5, 6, 7, 8], &[2, 3, 4, 0, 6, 7, 8, 5, 1]],
    },
];

/// A case: a script; the node whose replica is asked for, or `None` for the whole cluster; dots of node `a`, each as
/// the node at which it is looked up and its clock; and for each outcome the standings of these dots: 0 unseen, 1 live,
/// 2 gone.
struct Standings {
    text: &'static str,
    node: Option<u16>,
    dots: &'static [(u16, u64)],
    outcomes: &'static [&'static [u8]],
}

/// The cases in turn: a node's own dot, which it never misses; a join and its leave, where a node may miss the leave or
/// both (its rows are the same after both and after neither); and a message, which one node may miss, or each of two
/// nodes.
const STANDINGS: &[Standings] = &[
    Standings {
        text: UP_LATE,
        node: Some(0),
        dots: &[(0, 1)],
        outcomes: &[&[1]],
    },
    Standings {
        text: GONE,
        node: Some(1),
        dots: &[(1, 1), (1, 2)],
        outcomes: &[&[2, 2], &[1, 0], &[0, 0]],
    },
    Standings {
        text: BOTH,
        node: Some(1),
        dots: &[(1, 1)],
        outcomes: &[&[1], &[0]],
    },
    Standings {
        text: BOTH,
        node: None,
        dots: &[(1, 1), (2, 1)],
        outcomes: &[&[1, 1], &[1, 0], &[0, 1], &[0, 0]],
    },
];

/// The question for the rows of topic `r` and this key at a node.
fn presence<'a>(node: u16, key: &str, heap: &'a Heap, rt: &impl Abort) -> Question<&'a Heap> {
    let topic = Word::new(heap, "r").expect(rt, "a topic");
    let key = Word::new(heap, key).expect(rt, "a key");
    Question::Presence { node, topic, key }
}

/// Bounds in which no delivery is lost and none comes again, and in which so many states may be kept.
fn within(states: usize) -> Bounds {
    Bounds {
        lost: 0,
        again: 0,
        states,
    }
}

/// What an exploration of the bench gives.
fn explored<'a>(
    bench: &mut Bench<'a, Heap>,
    asked: &Question<&'a Heap>,
    bounds: Bounds,
    heap: &'a Heap,
    rt: &impl Abort,
) -> Result<Explored<'a, Heap>, ExploreFault> {
    assert!(rt; asked.is_there(bench.names().len()), "a node");
    explore(bench, asked, bounds, heap, &mut Silent)
}

/// Whether the outcomes have these runs, in this order, and there are no other outcomes.
fn has_runs<'a>(explored: &Explored<'a, Heap>, runs: &[&[usize]]) -> bool {
    if explored.outcomes.len() != runs.len() {
        return false;
    }
    for (outcome, run) in explored.outcomes.iter().zip(runs) {
        if outcome.run() != *run {
            return false;
        }
    }
    true
}

/// Explores the case: the outcomes must have the runs that the case lists.
fn case_holds(case: &Case, heap: &Heap, rt: &impl Abort) {
    let mut bench = played(case.text, Limits::usual(), heap, rt);
    let asked = presence(case.node, "x", heap, rt);
    let bounds = Bounds {
        lost: case.lost,
        again: case.again,
        states: 1000,
    };
    let told = explored(&mut bench, &asked, bounds, heap, rt);
    drop(asked);
    drop(bench);
    holds!(rt, told.is_ok_and(|told| has_runs(&told, case.runs)));
}

#[test]
fn runs_come_out_by_what_the_network_does(rt: HostRuntime) {
    let heap = Refusing::new(rt.alloc());
    for case in CASES {
        case_holds(case, &heap, &rt);
    }
}

/// The standing of node `a`'s dot with this clock at a node: 0 unseen, 1 live, 2 gone; 0 also if there is no such node.
fn standing<'a>(cluster: &Cluster<'a, Heap>, node: u16, clock: u64) -> u8 {
    let dot = Dot { name: 0, clock };
    let Some(node) = cluster.node(node) else {
        return 0;
    };
    if node.replica().entries().get(dot).is_some() {
        return 1;
    }
    if node.replica().seen().contains(dot) {
        return 2;
    }
    0
}

/// Whether the dots stand in the outcome as `so` says, which must have one standing for each dot.
fn is_so<'a>(outcome: &Outcome<'a, Heap>, dots: &[(u16, u64)], so: &[u8]) -> bool {
    if dots.len() != so.len() {
        return false;
    }
    for (dot, standing_wanted) in dots.iter().zip(so) {
        let (node, clock) = *dot;
        if standing(outcome.cluster(), node, clock) != *standing_wanted {
            return false;
        }
    }
    true
}

/// Whether in one of the outcomes the dots have the standings `so`, one for each dot.
fn is_one_so<'a>(explored: &Explored<'a, Heap>, dots: &[(u16, u64)], so: &[u8]) -> bool {
    for outcome in &explored.outcomes {
        if is_so(outcome, dots, so) {
            return true;
        }
    }
    false
}

/// Whether the exploration has as many outcomes as the case lists, and has for each listed outcome one in which the
/// dots stand as listed.
fn are_so<'a>(explored: &Explored<'a, Heap>, told: &Standings) -> bool {
    for so in told.outcomes {
        if !is_one_so(explored, told.dots, so) {
            return false;
        }
    }
    explored.outcomes.len() == told.outcomes.len()
}

/// Explores the case: the outcomes must be those that the case lists.
fn standings_hold(told: &Standings, heap: &Heap, rt: &impl Abort) {
    let mut bench = played(told.text, Limits::usual(), heap, rt);
    let asked = match told.node {
        Some(node) => Question::Node(node),
        None => Question::Cluster,
    };
    let found = explored(&mut bench, &asked, within(1000), heap, rt);
    drop(asked);
    drop(bench);
    holds!(rt, found.is_ok_and(|found| are_so(&found, told)));
}

#[test]
fn replicas_come_out_by_what_the_network_does(rt: HostRuntime) {
    let heap = Refusing::new(rt.alloc());
    for told in STANDINGS {
        standings_hold(told, &heap, &rt);
    }
}

/// Explores with at most three states, which are too few though both outcomes are found, and with four, which are
/// enough.
fn keeps_four<'a>(bench: &mut Bench<'a, Heap>, heap: &'a Heap, rt: &impl Abort) {
    let asked = presence(1, "x", heap, rt);
    let few = explored(bench, &asked, within(3), heap, rt).err();
    let enough = explored(bench, &asked, within(4), heap, rt);
    drop(asked);
    holds!(rt, few == Some(ExploreFault::TooManyStates { outcomes: 2 }));
    holds!(rt, enough.is_ok_and(|enough| enough.states == 4));
}

/// Plays `UP_LATE`; `keeps_four` explores it.
fn few_states_are_kept<'a>(heap: &'a Heap, rt: &impl Abort) {
    let mut bench = played(UP_LATE, Limits::usual(), heap, rt);
    keeps_four(&mut bench, heap, rt);
    drop(bench);
}

#[test]
fn states_are_no_more_than_may_be(rt: HostRuntime) {
    let heap = Refusing::new(rt.alloc());
    few_states_are_kept(&heap, &rt);
}

/// The run makes two entries at a node that may hold one. The exploration is refused, though one entry leaves before
/// the other joins.
fn a_node_may_fill<'a>(heap: &'a Heap, rt: &impl Abort) {
    let limits = limits_of([100, 1, 100, 100], rt);
    let mut bench = played(
        "nodes a\na join 1 r x phone\na leave 1 r x\na join 1 r x phone",
        limits,
        heap,
        rt,
    );
    let fault = explored(&mut bench, &Question::Cluster, within(1000), heap, rt).err();
    drop(bench);
    holds!(rt, fault == Some(ExploreFault::MayFill));
}

#[test]
fn joins_that_may_fill_a_node_are_refused(rt: HostRuntime) {
    let heap = Refusing::new(rt.alloc());
    a_node_may_fill(&heap, &rt);
}

/// Only one of 65 deliveries brings what is asked for, and the up of the sender may come before or after that delivery:
/// two outcomes.
#[test]
fn a_wide_run_has_few_outcomes(rt: HostRuntime) {
    let heap = Refusing::new(rt.alloc());
    let text = wide::script(&heap, &rt);
    let mut bench = played(text.as_str(), Limits::usual(), &heap, &rt);
    drop(text);
    let asked = presence(1, "k130", &heap, &rt);
    let told = explored(&mut bench, &asked, within(1000), &heap, &rt);
    drop(asked);
    drop(bench);
    holds!(&rt, told.is_ok_and(|told| told.outcomes.len() == 2));
}

/// Explores with the first, second, .. request for memory refused, until no refusal is met. Each refusal must be
/// `OutOfMemory`.
fn explore_refused<'a>(
    bench: &mut Bench<'a, Heap>,
    asked: &Question<&'a Heap>,
    heap: &'a Heap,
    rt: &impl Abort,
) {
    for number in 1..10_000 {
        heap.refuse_only(number);
        let fault = explored(bench, asked, within(1000), heap, rt).err();
        heap.refuse_none();
        match fault {
            None => return,
            Some(fault) => holds!(rt, fault == ExploreFault::OutOfMemory),
        }
    }
    holds!(rt, false);
}

/// Like `explore_refused`, asking for the rows of topic `r` and key `x` at node 1.
fn rows_refused<'a>(bench: &mut Bench<'a, Heap>, heap: &'a Heap, rt: &impl Abort) {
    let asked = presence(1, "x", heap, rt);
    explore_refused(bench, &asked, heap, rt);
    drop(asked);
}

/// Like `explore_refused`, for each kind of question.
fn each_refused<'a>(bench: &mut Bench<'a, Heap>, heap: &'a Heap, rt: &impl Abort) {
    rows_refused(bench, heap, rt);
    explore_refused(bench, &Question::Node(1), heap, rt);
    explore_refused(bench, &Question::Cluster, heap, rt);
}

/// Asks each kind of question of one bench, like `each_refused`.
fn each_question_is_refused<'a>(heap: &'a Heap, rt: &impl Abort) {
    let mut bench = played(GONE, Limits::usual(), heap, rt);
    each_refused(&mut bench, heap, rt);
    drop(bench);
}

#[test]
fn each_request_for_memory_is_refused(rt: HostRuntime) {
    let heap = Refusing::new(rt.alloc());
    each_question_is_refused(&heap, &rt);
}

/// A watcher that notes how often it was called, with how many states at the last call, and whether any call had fewer
/// states than the call before.
#[derive(Drop)]
struct Counting {
    calls: u64,
    states: usize,
    falls: bool,
}

impl Watch<Walked> for Counting {
    ghost use Rattle.std.specs.Prelude.{⊤};

    ghost told = { λ _ _. ⊤ };

    fn tell(&mut self, work: Walked) {
        // form: saturating spares a requirement
        self.calls = self.calls.saturating_add(1);
        self.falls |= work.states < self.states;
        self.states = work.states;
    }
}

/// The walk of `UP_LATE` goes from the opening through a join, a broadcast, an up and a delivery; then, from the
/// broadcast on, through the delivery and the up. So it tells the watcher of seven states. When it tells of the last
/// two, it has kept two states: the one after the first up, and the one after the delivery that follows that up.
fn tells_seven<'a>(bench: &mut Bench<'a, Heap>, heap: &'a Heap, rt: &impl Abort) {
    let asked = presence(1, "x", heap, rt);
    let mut watch = Counting {
        calls: 0,
        states: 0,
        falls: false,
    };
    assert!(rt; asked.is_there(bench.names().len()), "a node");
    let told = explore(bench, &asked, within(1000), heap, &mut watch);
    drop(asked);
    holds!(rt, told.is_ok_and(|told| told.outcomes.len() == 2));
    holds!(rt, watch.calls == 7 && watch.states == 2 && !watch.falls);
}

/// Plays `UP_LATE`; `tells_seven` explores it, and looks at what the watcher heard.
fn walk_is_watched<'a>(heap: &'a Heap, rt: &impl Abort) {
    let mut bench = played(UP_LATE, Limits::usual(), heap, rt);
    tells_seven(&mut bench, heap, rt);
    drop(bench);
}

#[test]
fn a_watcher_is_told_how_far_the_walk_is(rt: HostRuntime) {
    let heap = Refusing::new(rt.alloc());
    walk_is_watched(&heap, &rt);
}
