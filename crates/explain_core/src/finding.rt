//! Why a presence is online at a node, or why not.
ghost use Rattle.std.specs.Prelude.{◌≡◌, IfOk};
ghost use Rattle.journal_core.specs.Holdings.{kepts};
ghost use Rattle.node_core.specs.Operations.{plain};
ghost use Rattle.std.specs.Prelude.{None as Nothing};
ghost use Rattle.explain_core.specs.Tracks.{stand_at};
ghost use Rattle.explain_core.specs.Findings.{AreStatuses, chain, finding_of, found, is_forgotten_at, is_link, is_missed_at, is_sent_as, is_status_of, is_up_at, is_why, last_status, missing, numbers_of, has_left};

use crate::hop::{Hop, Kind};
use crate::standing::{Standing, standing_at};
use crate::track::{Track, stand_at};
use bench_core::{Bench, Journal, Step};
use dots_core::{Dot, Oom};
use std::alloc::Allocator;
use std::marker::Model;

/// How a presence stands at a node, and why. The last four verdicts can also say why the removal of a presence didn't
/// come to the node.
#[derive(Clone, Copy, Debug, PartialEq, Eq)]
pub enum Verdict {
    /// The presence is in the node's online list.
    Online,
    /// The node has the presence, and the presence's name is down there.
    Down,
    /// The presence's dot is gone at the node, by a delivery or by a step of the node itself.
    Removed,
    /// The presence left at its own node, and its dot is unseen at the node that is asked about.
    Left,
    /// The node had seen the presence's dot, live or gone, and forgot all dots of the presence's name.
    Forgotten,
    /// The presence was delivered while the node didn't know the presence's name, so the node took nothing of it.
    Missed,
    /// The presence was sent, and no step of the node delivered it.
    Undelivered,
    /// No step sent the presence.
    Unsent,
}

/// A verdict, with the numbers of the steps that it rests on, in the order of the steps.
#[derive(Drop)]
pub struct Finding<A: Allocator> {
    pub verdict: Verdict,
    pub steps: Vec<u64, A>,
}

impl<A: Allocator> Model for Finding<A> {
    ghost use Rattle.explain_core.specs.Findings.{Finding};

    ghost Value = { Finding };

    ghost view = { λ f. record { verdict = f.verdict; steps = f.steps.items } };
}

impl Hop {
    /// Whether this step has the number `target`, and either sent the dot or brought it to the step's node.
    fn is_link(&self, target: Option<u64>) -> bool
        ensures { result ≡ is_link target self.now }
    {
        match target {
            Some(number) => {
                matches!(self.kind, Kind::Sent | Kind::Came) && number == self.number
            }
            None => false,
        }
    }

    /// Whether this step made the node forget the dot, which until then stood there as `wanted` or above.
    fn is_forgotten_at(&self, node: u16, wanted: Standing) -> bool
        ensures { result ≡ is_forgotten_at node wanted self.now }
    {
        matches!(self.kind, Kind::Forgot) && self.node == node && !wanted.is_above(self.standing)
    }

    /// Whether this step delivered to the node a message in which the dot stands as `wanted`, and the node missed the
    /// dot.
    fn is_missed_at(&self, node: u16, wanted: Standing) -> bool
        ensures { result ≡ is_missed_at node wanted self.now }
    {
        matches!(self.kind, Kind::Missed) && self.node == node && self.standing.is_same(wanted)
    }

    /// Whether this step sent a message in which the dot stands as `wanted`.
    fn is_sent_as(&self, wanted: Standing) -> bool
        ensures { result ≡ is_sent_as wanted self.now }
    {
        matches!(self.kind, Kind::Sent) && self.standing.is_same(wanted)
    }

    /// Whether this step is a reason of this kind why the dot doesn't stand as `wanted` at the node: `is_forgotten_at`
    /// for `Forgot`, `is_missed_at` for `Missed`, `is_sent_as` for `Sent`. `Came` is no reason; it counts as `Sent`.
    fn is_why(&self, kind: Kind, node: u16, wanted: Standing) -> bool
        ensures { result ≡ is_why kind node wanted self.now }
    {
        match kind {
            Kind::Forgot => self.is_forgotten_at(node, wanted),
            Kind::Missed => self.is_missed_at(node, wanted),
            Kind::Sent | Kind::Came => self.is_sent_as(wanted),
        }
    }
}

/// The numbers of the sends and deliveries that brought the dot to the step `by`, in their order: each step made what
/// the next one read, and the last is `by`. Empty if `by` is `None`, or a step that neither sent nor brought the dot.
#[tactic(auto, unfolding(crate::specs::Findings::backwards))]
fn chain<A: Allocator>(alloc: A, hops: &[Hop], by: Option<u64>) -> Result<Vec<u64, A>, Oom>
    ensures { IfOk result (λ numbers. numbers.items ≡ chain hops.now by) }
{
    let mut numbers = Vec::new(alloc);
    let mut target = by;
    let mut left = hops.len();
    while left > 0 {
        left -= 1;
        let hop = hops[left];
        if hop.is_link(target) {
            numbers.push(hop.number)?;
            target = hop.reads;
        }
    }
    numbers.reverse();
    Ok(numbers)
}

/// The numbers of the steps for which `is_why` holds, in the order of `hops`.
fn numbers_of<A: Allocator>(
    alloc: A,
    hops: &[Hop],
    kind: Kind,
    node: u16,
    wanted: Standing,
) -> Result<Vec<u64, A>, Oom>
    ensures { IfOk result (λ numbers. numbers.items ≡ numbers_of (is_why kind node wanted) hops.now) }
{
    hops.iter()
        .filter(|hop| hop.is_why(kind, node, wanted))
        .map(|hop| hop.number)
        .collect(alloc)
}

/// Why the dot doesn't stand as `wanted` at the node: `Forgotten`, `Missed`, `Undelivered` or `Unsent`, the first of
/// these that holds. `Forgotten` and `Missed` come with the steps that did so, `Undelivered` with those that sent the
/// dot as `wanted`.
#[tactic(auto, unfolding(crate::specs::Findings::missing))]
pub fn missing<A: Allocator + Copy>(
    alloc: A,
    hops: &[Hop],
    node: u16,
    wanted: Standing,
) -> Result<Finding<A>, Oom>
    ensures { IfOk result (λ finding. finding ≡ missing hops.now node wanted) }
{
    let forgotten = numbers_of(alloc, hops, Kind::Forgot, node, wanted)?;
    if !forgotten.is_empty() {
        return Ok(Finding {
            verdict: Verdict::Forgotten,
            steps: forgotten,
        });
    }
    // form: drop before exit
    drop(forgotten);
    let missed = numbers_of(alloc, hops, Kind::Missed, node, wanted)?;
    if !missed.is_empty() {
        return Ok(Finding {
            verdict: Verdict::Missed,
            steps: missed,
        });
    }
    drop(missed);
    let steps = numbers_of(alloc, hops, Kind::Sent, node, wanted)?;
    let verdict = if steps.is_empty() {
        Verdict::Unsent
    } else {
        Verdict::Undelivered
    };
    Ok(Finding { verdict, steps })
}

/// Whether the name is up at the node; false if there is no such node, or the node doesn't know the name.
#[tactic(auto, unfolding(crate::specs::Findings::is_up_at, report_core::specs::Shown::node_of))]
fn is_up_at<'a, B: Allocator>(bench: &Bench<'a, B>, node: u16, name: u16) -> bool
    ensures { result ≡ is_up_at bench.now node name }
{
    match bench.node(node) {
        Some(node) => node.replica().online(name),
        None => false,
    }
}

/// Whether the presence of the dot has left at its own node, which is the node that the dot names.
pub fn has_left<'a, B: Allocator>(bench: &Bench<'a, B>, dot: Dot) -> bool
    ensures { result ≡ has_left bench.now dot }
{
    standing_at(bench, dot.name, dot).is_same(Standing::Gone)
}

/// The verdict, with the steps that brought the dot to its standing at the node.
fn brought<A: Allocator, T: Allocator>(
    alloc: A,
    track: &Track<T>,
    node: u16,
    verdict: Verdict,
) -> Result<Finding<A>, Oom>
    ensures { IfOk result (λ finding. finding ≡ found verdict (chain track.now.hops (stand_at track.now.stands node).by)) }
{
    let steps = chain(alloc, &track.hops, stand_at(&track.stands, node).by)?;
    Ok(Finding { verdict, steps })
}

/// How the presence of `dot` stands at the node, with the steps that tell why. `track` must be the dot's track.
#[tactic(auto, unfolding(crate::specs::Findings::finding_of))]
pub fn finding_of<'a, B: Allocator>(
    bench: &Bench<'a, B>,
    node: u16,
    dot: Dot,
    track: &Track<&'a B>,
    alloc: &'a B,
) -> Result<Finding<&'a B>, Oom>
    ensures { IfOk result (λ finding. finding ≡ finding_of bench.now node dot track.now) }
{
    match standing_at(bench, node, dot) {
        Standing::Live => {
            let verdict = if is_up_at(bench, node, dot.name) {
                Verdict::Online
            } else {
                Verdict::Down
            };
            brought(alloc, track, node, verdict)
        }
        Standing::Gone => brought(alloc, track, node, Verdict::Removed),
        Standing::Unseen => {
            if has_left(bench, dot) {
                return Ok(Finding {
                    verdict: Verdict::Left,
                    steps: Vec::new(alloc),
                });
            }
            missing(alloc, &track.hops, node, Standing::Live)
        }
    }
}

/// Whether the step is an up, a down or a permanently down of this name.
fn is_status_of<A: Allocator>(step: &Step<A>, name: u16) -> bool
    ensures { result ≡ is_status_of name (plain step.now) }
{
    match step {
        Step::Up { name: other } | Step::Down { name: other } | Step::Permdown { name: other } => {
            *other == name
        }
        _ => false,
    }
}

/// The number of the node's last remaining step that is an up, a down or a permanently down of this name; `None` if
/// there is none.
#[tactic(auto, unfolding(crate::specs::Findings::last_status))]
fn last_status<'a, B: Allocator>(journal: &Journal<'a, B>, node: u16, name: u16) -> Option<u64>
    ensures { result ≡ last_status Nothing (kepts journal.now.steps) node name }
{
    let mut last = None;
    let mut steps = journal.steps();
    while let Some(kept) = steps.next() {
        if kept.node == node && is_status_of(&kept.step, name) {
            last = Some(kept.number);
        }
    }
    last
}

/// What `last_status` gives for each name below `names`, in the order of the names.
pub fn last_statuses<'a, B: Allocator>(
    journal: &Journal<'a, B>,
    node: u16,
    names: u16,
    alloc: &'a B,
) -> Result<Vec<Option<u64>, &'a B>, Oom>
    ensures { IfOk result (λ statuses. AreStatuses (kepts journal.now.steps) node statuses.items) }
{
    let mut statuses = Vec::with_capacity(alloc, names as usize)?;
    for name in 0..names {
        statuses.push(last_status(journal, node, name))?;
    }
    Ok(statuses)
}

/// The same as `last_status`, looked up in `statuses` (see `last_statuses`) if that list has the name.
pub fn status_among<'a, B: Allocator>(
    journal: &Journal<'a, B>,
    statuses: &[Option<u64>],
    node: u16,
    name: u16,
) -> Option<u64>
    requires { AreStatuses (kepts journal.now.steps) node statuses.now }
    ensures { result ≡ last_status Nothing (kepts journal.now.steps) node name }
{
    match statuses.get(name as usize) {
        Some(status) => *status,
        None => last_status(journal, node, name),
    }
}
