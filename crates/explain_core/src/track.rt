//! `Track`: how a dot came to stand as it does at each node.
ghost use Rattle.std.specs.Prelude.{◌≡◌, IfOk, OnOk};
ghost use Rattle.node_core.specs.Operations.{plain};
ghost use Rattle.explain_core.specs.Tracks.{delivered_hop, followed, hop_at, is_changed, is_told, no_track, other_hop, reaches, sender_among, sent_hop, stand_at, with_hop, with_stand};
ghost use Rattle.explain_core.specs.Standings.{standing_at};

use crate::hop::{Hop, Kind, Stand};
use crate::standing::{Standing, last_message, standing_at, standing_sent};
use bench_core::{Bench, Kept, Step};
use dots_core::{Dot, Oom};
use std::alloc::Allocator;
use std::marker::Model;

/// How a dot stands at each node, and since which of the node's steps; and the dot's hops, in the order of the steps.
#[derive(Drop)]
pub struct Track<A: Allocator> {
    pub stands: Vec<Stand, A>,
    pub hops: Vec<Hop, A>,
}

impl<A: Allocator> Model for Track<A> {
    ghost use Rattle.explain_core.specs.Tracks.{Track};

    ghost Value = { Track };

    ghost view = { λ t. record { stands = t.stands.items; hops = t.hops.items } };
}

/// How the dot stands at a node, and since which step; unseen from the beginning, if there is no such node.
pub fn stand_at(stands: &[Stand], node: u16) -> Stand
    ensures { result ≡ stand_at stands.now node }
{
    stands.get(node as usize).copied().unwrap_or(Stand {
        standing: Standing::Unseen,
        by: None,
    })
}

/// The number of the step that sent this message of the node; `None` if no hop is that send, as the message doesn't
/// have the dot or wasn't sent.
fn sender_among(hops: &[Hop], node: u16, message: u64) -> Option<u64>
    ensures { result ≡ sender_among hops.now node message }
{
    hops.iter()
        .find(|hop| hop.is_sender(node, message))
        .map(|hop| hop.number)
}

/// A hop of the step `kept`, with the number and the node of the step.
fn hop_of<A: Allocator>(
    kept: &Kept<A>,
    kind: Kind,
    standing: Standing,
    message: u64,
    reads: Option<u64>,
) -> Hop
    ensures { result ≡ record { kind = kind; number = kept.now.number; node = kept.now.node; standing = standing; message = message; reads = reads } }
{
    Hop {
        kind,
        number: kept.number,
        node: kept.node,
        standing,
        message,
        reads,
    }
}

/// The hop of a send: the dot stood as `before` at the node, and stands as `told` in the message. `None` if the message
/// doesn't have the dot.
fn sent_hop<A: Allocator>(
    kept: &Kept<A>,
    before: Stand,
    message: u64,
    told: Standing,
) -> Option<Hop>
    ensures { result ≡ sent_hop kept.now before message told }
{
    // form: each arm is a case of the proof
    match told {
        Standing::Unseen => None,
        Standing::Live => Some(hop_of(kept, Kind::Sent, Standing::Live, message, before.by)),
        Standing::Gone => Some(hop_of(kept, Kind::Sent, Standing::Gone, message, before.by)),
    }
}

/// The hop of a delivery: the dot stood as `before` at the node, stands as `told` in the message, and as `now` at the
/// node after the delivery. `Came` if the standing at the node changed; `Missed` if it didn't and `told` is
/// above it; `None` if neither is so. `reads` is the number of the step that sent the message.
fn delivered_hop<A: Allocator>(
    kept: &Kept<A>,
    before: Stand,
    told: Standing,
    now: Standing,
    reads: Option<u64>,
) -> Option<Hop>
    ensures { result ≡ delivered_hop kept.now before told now reads }
{
    if !before.standing.is_same(now) {
        return Some(hop_of(kept, Kind::Came, now, 0, reads));
    }
    if told.is_above(now) {
        Some(hop_of(kept, Kind::Missed, told, 0, reads))
    } else {
        None
    }
}

/// Like `delivered_hop`, but looks up the step that sent the message, which is given by its sender and its number, and
/// only if the delivery has a hop.
fn received_hop<A: Allocator>(
    kept: &Kept<A>,
    hops: &[Hop],
    before: Stand,
    told: Standing,
    now: Standing,
    message: (u16, u64),
) -> Option<Hop>
    ensures { result ≡ delivered_hop kept.now before told now (sender_among hops.now message.0 message.1) }
{
    if before.standing.is_same(now) && !told.is_above(now) {
        return None;
    }
    let reads = sender_among(hops, message.0, message.1);
    delivered_hop(kept, before, told, now, reads)
}

/// The hop of a step that neither sends nor delivers, if the step forgot the dot; else `None`.
fn other_hop<A: Allocator>(kept: &Kept<A>, before: Stand, now: Standing) -> Option<Hop>
    ensures { result ≡ other_hop kept.now before now }
{
    if now.is_same(Standing::Unseen) && before.standing.is_above(Standing::Unseen) {
        Some(hop_of(kept, Kind::Forgot, before.standing, 0, before.by))
    } else {
        None
    }
}

/// The hop of a step; `None` if the step did to the dot nothing that `Kind` lists. The dot stood as `before` at the
/// step's node and stands there as `now`. `asked` is the bench after the step; `hops` are the dot's earlier hops.
#[tactic(auto, unfolding(crate::specs::Tracks::hop_at))]
fn hop_at<'a, B: Allocator>(
    dot: Dot,
    asked: &Bench<'a, B>,
    kept: &Kept<&'a B>,
    hops: &[Hop],
    before: Stand,
    now: Standing,
) -> Option<Hop>
    requires { now ≡ standing_at asked.now kept.now.node dot }
    ensures { result ≡ hop_at dot asked.now kept.now hops.now before }
{
    if kept.step.sends() {
        let message = last_message(asked, kept.node);
        let told = standing_sent(asked, kept.node, message, dot);
        return sent_hop(kept, before, message, told);
    }
    match kept.step.delivers() {
        None => other_hop(kept, before, now),
        Some(message) => {
            let told = standing_sent(asked, message.0, message.1, dot);
            received_hop(kept, hops, before, told, now, message)
        }
    }
}

/// Whether the node's message has the dot, live or gone.
fn is_told<'a, B: Allocator>(asked: &Bench<'a, B>, node: u16, message: u64, dot: Dot) -> bool
    ensures { result ≡ is_told asked.now node message dot }
{
    !standing_sent(asked, node, message, dot).is_same(Standing::Unseen)
}

/// Whether this step of `node` may change how a dot of this name stands there; false for a delivery, which `reaches`
/// looks at by itself.
fn is_changed<A: Allocator>(step: &Step<A>, node: u16, name: u16) -> bool
    ensures { result ≡ is_changed (plain step.now) node name }
{
    match step {
        Step::Join { .. } | Step::Leave { .. } | Step::LeaveAll { .. } | Step::Update { .. } => {
            name == node
        }
        Step::Permdown { name: other } => name == *other,
        _ => false,
    }
}

/// Whether the step may have done something to the dot. `asked` is the bench after the step. This is cheaper to find
/// out than what the step did.
#[tactic(auto, unfolding(crate::specs::Tracks::reaches))]
pub fn reaches<'a, B: Allocator>(asked: &Bench<'a, B>, kept: &Kept<&'a B>, dot: Dot) -> bool
    ensures { result ≡ reaches asked.now kept.now dot }
{
    if kept.step.sends() {
        return is_told(asked, kept.node, last_message(asked, kept.node), dot);
    }
    match kept.step.delivers() {
        Some((sender, message)) => is_told(asked, sender, message, dot),
        None => is_changed(&kept.step, kept.node, dot.name),
    }
}

/// Appends the hop, if there is one.
fn put_hop<A: Allocator>(hops: &mut Vec<Hop, A>, hop: Option<Hop>) -> Result<(), Oom>
    ensures { OnOk result (hops.new.items ≡ with_hop hops.old.items hop) }
{
    if let Some(hop) = hop {
        hops.push(hop)?;
    }
    Ok(())
}

/// Notes in `stands` how the dot stands at the step's node after the step, and that it has stood so since this step.
/// Changes nothing if the dot stood so before, or if there is no such node.
fn put_stand<A: Allocator, W: Allocator>(
    stands: &mut Vec<Stand, A>,
    kept: &Kept<W>,
    standing: Standing,
)
    ensures { stands.new.items ≡ with_stand stands.old.items kept.now standing }
{
    if stand_at(stands, kept.node).standing.is_same(standing) {
        return;
    }
    let by = Some(kept.number);
    if let Some(stand) = stands.get_mut(kept.node as usize) {
        *stand = Stand { standing, by };
    }
}

impl<A: Allocator> Track<A> {
    /// The empty track of a dot, which stands unseen at each of `nodes` nodes.
    pub fn new(alloc: A, nodes: usize) -> Result<Track<A>, Oom>
    where
        A: Copy,
        ensures { IfOk result (λ track. track ≡ no_track nodes) }
    {
        let unseen = Stand {
            standing: Standing::Unseen,
            by: None,
        };
        Ok(Track {
            stands: vec![in alloc; unseen; nodes]?,
            hops: Vec::new(alloc),
        })
    }
}

impl<'a, B: Allocator> Track<&'a B> {
    /// Follows `dot`, whose track this is, over one more step: appends what the step did to the dot, and notes how the
    /// dot stands at the step's node. `asked` is the bench after the step.
    #[tactic(auto, unfolding(crate::specs::Tracks::followed))]
    pub fn follow(&mut self, dot: Dot, asked: &Bench<'a, B>, kept: &Kept<&'a B>) -> Result<(), Oom>
        ensures { OnOk result (self.new ≡ followed dot asked.now kept.now self.old) }
    {
        let before = stand_at(&self.stands, kept.node);
        let now = standing_at(asked, kept.node, dot);
        let hop = hop_at(dot, asked, kept, &self.hops, before, now);
        put_hop(&mut self.hops, hop)?;
        put_stand(&mut self.stands, kept, now);
        Ok(())
    }
}
