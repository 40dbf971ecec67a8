//! A question in words.
ghost use Rattle.std.specs.Prelude.{IfErr, IfOk, length};
ghost use Rattle.explore_network.specs.Questions.{IsThere, plain};
ghost use Rattle.explore_report.specs.Asked.{Asks, IsUnasked};

use crate::report_fault::ReportFault;
use bench_core::Bench;
use explore_network::Question as Plain;
use payload_core::Word;
use std::alloc::Allocator;

/// What decides whether two outcomes differ.
#[derive(Clone, Copy, Debug, PartialEq, Eq)]
pub enum About<'q> {
    /// The whole cluster.
    Cluster,
    /// The node of this name.
    Node(&'q str),
    /// The rows of this topic and key in the online list of the node of this name.
    Presence {
        node: &'q str,
        topic: &'q str,
        key: &'q str,
    },
}

/// Asks what the network could have made of the steps that remain, with up to `lost` deliveries missing and up to
/// `again` that come a second time. The walk may keep at most `states` states.
#[derive(Clone, Copy, Debug, PartialEq, Eq)]
pub struct Question<'q> {
    pub about: About<'q>,
    pub lost: usize,
    pub again: usize,
    pub states: usize,
}

/// What the question is about, with the node's number in place of its name, and with topic and key as words.
/// `NoSuchNode` if no node has the name, `NoWord` if the topic or the key isn't a word.
pub(crate) fn asked<'a, B: Allocator>(
    bench: &Bench<'a, B>,
    about: About<'_>,
    alloc: &'a B,
) -> Result<Plain<&'a B>, ReportFault>
    ensures asks { IfOk result (λ question. Asks bench.now about.entry (plain question)) }
    ensures there { IfOk result (λ question. IsThere (length bench.now.names) (plain question)) }
    ensures refused { IfErr result (IsUnasked bench.now about.entry) }
{
    let names = bench.names();
    match about {
        About::Cluster => Ok(Plain::Cluster),
        About::Node(name) => match names.number_of(name) {
            Some(node) => Ok(Plain::Node(node)),
            None => Err(ReportFault::NoSuchNode),
        },
        About::Presence { node, topic, key } => {
            let Some(node) = names.number_of(node) else {
                return Err(ReportFault::NoSuchNode);
            };
            let topic = Word::new(alloc, topic)?;
            let key = Word::new(alloc, key)?;
            Ok(Plain::Presence { node, topic, key })
        }
    }
}
