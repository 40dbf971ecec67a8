//! The laws of the data, as contracts of functions that change nothing.
//!
//! A crate above uses a law by calling its function.
ghost use Rattle.page_data.specs.Chains.{AreSentValid, IsSentValid, RecordedLaw, TrackLaw};
ghost use Rattle.page_data.specs.Laws.{ChangeLaw, DotsLaw, HopsLaw, PastLaw, PlainLaw, PlainWithLaw, RowsLaw};

use bench_core::Bench;
use report_core::node;
use std::alloc::Allocator;

/// No `<` stands in the data of a page, so nothing in the data ends the HTML element around it.
pub fn plain_law()
    ensures { PlainLaw }
{}

/// No `<` stands in data with further keys behind the calls (`page_data_with`), if none stands in these keys.
pub fn plain_with_law()
    ensures { PlainWithLaw }
{}

/// If a call took a step or took one back, the last keys of the call's JSON object tell which rows left and joined the
/// online list of the step's node, and what changed in what this node has seen. `rows_law` and `dots_law` are about
/// these.
pub fn change_law()
    ensures { ChangeLaw }
{}

/// The rows that left and joined a node's online list during a sequence of calls lead from the list before these calls
/// to the list after them, if the bench had come to its state by calls.
pub fn rows_law()
    ensures { RowsLaw }
{}

/// Applied in order to what a node had seen before a sequence of calls, the `dots` of these calls lead to what the
/// node has seen after them, if the bench had come to its state by calls.
pub fn dots_law()
    ensures { DotsLaw }
{}

/// In the JSON of a call, `prev` is the number of the node's step before the call's step, and `from` that of the step
/// which sent what the call's step delivers. Among the steps that remain, a path by these two leads from a later step
/// back to an earlier one exactly if the later step follows from the earlier. (Danos and Krivine: causal undo.)
pub fn past_law()
    ensures { PastLaw }
{}

/// Applied to how a dot stood at a node before a delivery, the hops of the delivery give how the dot stands at the node
/// after the delivery. The dot's name must be below the `count` that `hops_at` was given.
pub fn hops_law()
    ensures { HopsLaw }
{}

/// Let the remaining steps be asked again of a fresh bench. If the track of a dot is made by the `hops` and `from` of
/// deliveries, it is the track that `explain` follows, but for steps that missed or forgot the dot. So the chain that
/// `explain` finds to each step is the same. What other steps change, and whether a message has the dot, is read off
/// the bench. The dot's name must be a node's, and the dots of each message that was sent must be valid, as `sent_law`
/// says of each bench.
pub fn track_law()
    ensures { TrackLaw }
{}

/// In its recorded call, a step that remains was told as it is told if the remaining steps are asked again of a fresh
/// bench, whatever was undone since. The step's node is the same right before the step, and so is the message that the
/// step delivers; so `missed` and the `hops` of the delivery are the same. `prev` and `from` name the same steps, by
/// the numbers of the recorded run. So the recorded calls have the `hops` and the `from` of `track_law`.
pub fn recorded_law()
    ensures { RecordedLaw }
{}

/// The dots of each message that the node sent are valid, if there is such a node.
fn node_sent_law<'a, B: Allocator>(bench: &Bench<'a, B>, number: u16)
    ensures { IsSentValid bench.now number }
{
    if let Some(node) = node(bench, number) {
        node.node_law();
    }
}

/// In each bench, the dots of each message that a node sent are valid, as `track_law` asks. `Bench::bench_law` says
/// what else it asks: that calls lead to the state of the bench.
pub fn sent_law<'a, B: Allocator>(bench: &Bench<'a, B>)
    ensures { AreSentValid bench.now }
{
    // form: hands out what the bench keeps
    bench.bench_law();
    for number in 0..bench.names().len() as u16 {
        node_sent_law(bench, number);
    }
}
