//! `Cluster`: the nodes of a cluster, which take steps and keep no history and no journal.
ghost use Rattle.std.specs.Prelude.{◌≡◌, ◌≢◌, ◌↔◌, ◌<◌, ◌≤◌, ◌+◌, ◌&&◌, ◌++◌, ◌∷◌, [], Ok, Err, IfErr, IfOk, IsOk, IsTrue, OnOk, OnErr, length, true, nat_lt, option_map, slice_get};
ghost use Rattle.std.specs.List.{list_all};
ghost use Rattle.dots_core.specs.Names.{most_names};
ghost use Rattle.replica_core.specs.Limits.{AreNodeLimits};
ghost use Rattle.node_core.specs.Inverses.{plain_inverse, needs_no_memory};
ghost use Rattle.node_core.specs.Nodes.{Node as PlainNode};
ghost use Rattle.node_core.specs.Operations.{named_in, plain};
ghost use Rattle.bench_core.specs.declared.fault.Fault.TheVariants.{OutOfMemory};
ghost use Rattle.bench_core.specs.Among.{MayStep, StepsOnce};
ghost use Rattle.bench_core.specs.Clusters.{opening_of, message_for, step as cluster_step};
ghost use Rattle.bench_core.specs.Benches.{IsNumbered, LeadsClusterBack, LeadsNodeBack, NodeGoesBack, Steps};

use crate::among::{Member, other, step_at};
use crate::fault::Fault;
use dots_core::Oom;
use node_core::{Inverse, Meter, Node, NodeLimits, Step, StepFault};
use payload_core::Payload;
use std::alloc::Allocator;
use std::marker::Model;

/// The message that the step delivers, from the outbox of another node. `before` and `after` have the nodes with lower
/// and with higher numbers than the node that takes the step. `None` if the step delivers no message, or if none of
/// these nodes has the message.
fn message<'x, 'a, B: Allocator>(
    before: &'x [Node<'a, B>],
    after: &'x [Node<'a, B>],
    step: &Step<&'a B>,
) -> Option<&'x Payload<&'a B>>
    ensures { (silent : PlainNode) → silent.outbox ≡ [] → option_map (λ m. m.now) result ≡ message_for (before.now ++ silent ∷ after.now) (plain step.now) }
{
    let (sender, number) = step.delivers()?;
    other(before, after, sender as usize)?.outbox().get(number)
}

/// A node takes a step, and may read the other nodes: the message that a step delivers is in the outbox of one of them.
/// No step reads a message of its own node.
impl<'a, B: Allocator> Member for Node<'a, B> {
    type Step = Step<&'a B>;

    type Output = Result<Inverse<&'a B>, StepFault>;

    ghost may_take = { λ before node after step count. MayStep (before ++ node ∷ after) (plain step) count };

    ghost takes = { λ before node after step count output left counted.
        StepsOnce (before ++ node ∷ after) (length before) (plain step) count output (before ++ left ∷ after) counted };

    fn take_beside(
        &mut self,
        before: &[Self],
        after: &[Self],
        step: &Step<&'a B>,
        meter: &mut Meter,
    ) -> Result<Inverse<&'a B>, StepFault> {
        let result = self.take(step, message(before, after, step), meter);
        // form: hands out what the node keeps
        self.node_law();
        result
    }
}

/// Takes a step at node `actor`, and changes that node alone. `meter` counts the step if it is taken.
fn step_node<'a, B: Allocator>(
    nodes: &mut Vec<Node<'a, B>, &'a B>,
    actor: u16,
    step: &Step<&'a B>,
    meter: &mut Meter,
) -> Result<Inverse<&'a B>, StepFault>
    requires there { actor < length nodes.old.items }
    requires few { length nodes.old.items ≤ most_names }
    requires named { list_all (λ k. nat_lt k (length nodes.old.items)) (named_in (plain step.now)) ≡ true }
    requires numbered { IsNumbered nodes.old.items }
    requires meter { meter.old.count < 18446744073709551615 }
    ensures steps { Steps nodes.old.items actor (plain step.now) result nodes.new.items }
    ensures ticks { OnOk result (meter.new.count ≡ meter.old.count + 1) }
    ensures no_tick { OnErr result (meter.new.count ≡ meter.old.count) }
{
    step_at(nodes.as_mut_slice(), actor as usize, step, meter)
}

/// The nodes of a cluster, by number. A contract sees the list of them.
#[derive(Drop)]
pub struct Cluster<'a, B: Allocator> {
    nodes: Vec<Node<'a, B>, &'a B>,
}

impl<'a, B: Allocator> Model for Cluster<'a, B> {
    ghost use Rattle.std.specs.Coded.{coded_list};
    ghost use Rattle.node_core.specs.Nodes.{node_code};
    ghost use Rattle.bench_core.specs.Clusters.{Cluster};
    ghost use Rattle.bench_core.specs.Benches.{IsCluster};

    ghost Value = { Cluster };

    ghost coded = { coded_list node_code };

    ghost view = { λ c. c.nodes.items };

    ghost invariant = { λ c. IsCluster c.nodes.items };
}

impl<'a, B: Allocator> Cluster<'a, B> {
    /// A cluster of `count` empty nodes.
    pub fn new(alloc: &'a B, count: usize, limits: NodeLimits) -> Result<Self, Oom>
        requires few { count ≤ most_names }
        requires limits { AreNodeLimits limits }
        ensures { IfOk result (λ cluster. cluster ≡ opening_of limits count) }
    {
        let mut nodes = Vec::with_capacity(alloc, count)?;
        for number in 0..count as u16 {
            nodes.push_reserved(Node::new(alloc, number, limits));
        }
        Ok(Cluster { nodes })
    }

    /// How many nodes there are.
    pub fn len(&self) -> usize
        ensures { result ≡ length self.now }
    {
        self.nodes.len()
    }

    /// The node of this number; `None` if there is no such node.
    pub fn node(&self, number: u16) -> Option<&Node<'a, B>>
        ensures { option_map (λ n. n.now) result ≡ slice_get self.now number }
    {
        self.nodes.get(number as usize)
    }

    /// Whether both have the same nodes. It takes no memory.
    pub fn same(&self, other: &Cluster<'a, B>) -> bool
        ensures { IsTrue result ↔ (self.now ≡ other.now) }
    {
        if self.nodes.len() != other.nodes.len() {
            return false;
        }
        // form: a loop, for the proof
        for (number, node) in self.nodes.iter().enumerate() {
            if !node.same(&other.nodes[number]) {
                return false;
            }
        }
        true
    }

    pub(crate) fn allocator(&self) -> &'a B {
        *self.nodes.allocator()
    }

    /// Whether this node and the nodes that the step names are in the cluster.
    fn knows(&self, node: u16, step: &Step<&'a B>) -> bool
        ensures { result ≡ (nat_lt node (length self.now) && list_all (λ k. nat_lt k (length self.now)) (named_in (plain step.now))) }
    {
        let count = self.nodes.len() as u16;
        node < count && step.names_below(count)
    }

    /// Takes a step at this node, and gives the inverse that leads the cluster back. `UnknownNode` if `node`, or a node
    /// that the step names, isn't in the cluster; other faults are the node's. A refused step changes nothing.
    pub fn step(&mut self, node: u16, step: &Step<&'a B>) -> Result<Inverse<&'a B>, Fault>
        ensures taken { OnOk result (cluster_step self.old node (plain step.now) ≡ Ok self.new) }
        ensures refused { IfErr result (λ fault. fault ≢ OutOfMemory → cluster_step self.old node (plain step.now) ≡ Err fault) }
        ensures unchanged { OnErr result (self.new ≡ self.old) }
        ensures leads_back { IfOk result (λ inverse. LeadsClusterBack self.new node (plain_inverse inverse) self.old) }
    {
        if !self.knows(node, step) {
            return Err(Fault::UnknownNode);
        }
        Ok(self.take(node, step, &mut Meter::new())?)
    }

    /// Like `step`, but the node and the nodes that the step names must be in the cluster, and `meter` counts the step
    /// if it is taken. The faults are those of the node.
    pub(crate) fn take(
        &mut self,
        node: u16,
        step: &Step<&'a B>,
        meter: &mut Meter,
    ) -> Result<Inverse<&'a B>, StepFault>
        requires there { node < length self.old }
        requires named { list_all (λ k. nat_lt k (length self.old)) (named_in (plain step.now)) ≡ true }
        requires meter { meter.old.count < 18446744073709551615 }
        ensures steps { Steps self.old node (plain step.now) result self.new }
        ensures ticks { OnOk result (meter.new.count ≡ meter.old.count + 1) }
        ensures no_tick { OnErr result (meter.new.count ≡ meter.old.count) }
    {
        step_node(&mut self.nodes, node, step, meter)
    }

    /// Takes back the last step of this node by that step's inverse. If memory is refused, nothing changes, and the
    /// inverse comes back.
    pub fn give_back(
        &mut self,
        node: u16,
        inverse: Inverse<&'a B>,
    ) -> Result<(), (Inverse<&'a B>, Oom)>
        requires { LeadsNodeBack self.old node (plain_inverse inverse) }
        ensures ok { OnOk result (NodeGoesBack self.old node (plain_inverse inverse.entry) self.new) }
        ensures err { OnErr result (self.new ≡ self.old) }
        ensures given_back { IfErr result (λ failed. plain_inverse failed.0 ≡ plain_inverse inverse.entry) }
        ensures needs_no_memory { IsTrue (needs_no_memory (plain_inverse inverse.entry)) → IsOk result }
    {
        let place = &mut self.nodes[node as usize];
        place.give_back(inverse)
    }
}
