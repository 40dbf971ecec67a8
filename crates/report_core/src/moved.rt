//! `Moved`: the rows that left and joined the online list of a node over several undos.
ghost use Rattle.std.specs.Prelude.{◌≡◌, IfOk, List, OnOk};
ghost use Rattle.bench_core.specs.declared.reply.Reply.TheVariants.{Undone};
ghost use Rattle.bench_core.specs.Acts.{Undo};
ghost use Rattle.bench_core.specs.Machine.{Machine, undo_reply};
ghost use Rattle.diff_core.specs.Diffs.{alone};
ghost use Rattle.diff_core.specs.NetChanges.{ComesTo};
ghost use Rattle.diff_core.specs.Online.{AreInOrder};
ghost use Rattle.diff_core.specs.Rows.{Row};
ghost use Rattle.report_core.specs.MovedRows.{after_undos, no_moves, with_undone, with_undone_at, AreMade, AreMoved};
ghost use Rattle.report_core.specs.ActTexts.{after_act};
ghost use Rattle.report_core.specs.Shown.{node_of_step};

use crate::acting::reply_of;
use crate::step_diffs::step_diff;
use bench_core::laws::unwind_law;
use bench_core::{Act, Bench};
use diff_core::laws::online_law;
use diff_core::{Diff, OnlineRow, net};
use dots_core::Oom;
use std::alloc::Allocator;
use std::marker::Model;

/// The rows that left the online list of a node in several undos, and those that joined it, each row as often as it
/// left or joined. Contracts see both lists.
#[derive(Drop)]
pub struct Moved<'a, B: Allocator> {
    left: Vec<OnlineRow<&'a B>, &'a B>,
    joined: Vec<OnlineRow<&'a B>, &'a B>,
}

impl<'a, B: Allocator> Model for Moved<'a, B> {
    ghost use Rattle.report_core.specs.MovedRows.{Moves};

    ghost Value = { Moves };

    ghost view = { λ m. record { left = m.left.items; joined = m.joined.items } };
}

impl<'a, B: Allocator> Moved<'a, B> {
    /// A `Moved` in which no row left and none joined.
    fn none(alloc: &'a B) -> Self
        ensures { result ≡ no_moves }
    {
        Moved {
            left: Vec::new(alloc),
            joined: Vec::new(alloc),
        }
    }

    /// Adds the undo of a step, which had changed the list by `step`: the rows in `step.joined` leave, and those in
    /// `step.left` join.
    fn add(&mut self, mut step: Diff<&'a B>) -> Result<(), Oom>
        ensures { OnOk result (self.new ≡ with_undone self.old step.entry.left.items step.entry.joined.items) }
    {
        self.left.append(&mut step.joined)?;
        self.joined.append(&mut step.left)?;
        Ok(())
    }

    /// How the list differs from what it was before the undos that were added.
    pub fn net(&self, alloc: &'a B) -> Result<Diff<&'a B>, Oom>
        ensures left { IfOk result (λ net. (before after : List Row) → AreInOrder before → AreInOrder after →
            ComesTo before after self.now.left self.now.joined → net.left.items ≡ alone before after) }
        ensures joined { IfOk result (λ net. (before after : List Row) → AreInOrder before → AreInOrder after →
            ComesTo before after self.now.left self.now.joined → net.joined.items ≡ alone after before) }
    {
        net(alloc, &self.left, &self.joined)
    }
}

/// A `Moved` for each node of the bench, in which no row left and none joined.
fn none_moved<'a, B: Allocator>(
    bench: &Bench<'a, B>,
    alloc: &'a B,
) -> Result<Vec<Moved<'a, B>, &'a B>, Oom>
    ensures { IfOk result (λ moved. AreMoved bench.now bench.now moved.items) }
{
    let mut moved = Vec::new(alloc);
    for _ in 0..bench.names().len() {
        moved.push(Moved::none(alloc))?;
    }
    Ok(moved)
}

/// Adds to `moved`, at the place of `node`, the undo of a step that had changed the node's list by `step`, and gives
/// `moved` back. Adds nothing if `node` is `None`, or `moved` has no such place.
fn add_at<'a, B: Allocator>(
    moved: Vec<Moved<'a, B>, &'a B>,
    node: Option<u16>,
    step: Diff<&'a B>,
) -> Result<Vec<Moved<'a, B>, &'a B>, Oom>
    ensures { IfOk result (λ more. more.items ≡ with_undone_at moved.entry.items node step.entry.left.items step.entry.joined.items) }
{
    // form: `moved` is handed on by value, since edits of a list of lists in place cost the checker more
    let mut moved = moved;
    if let Some(node) = node {
        if let Some(moves) = moved.get_mut(node as usize) {
            moves.add(step)?;
        }
    }
    Ok(moved)
}

/// The node of the step with this number; `None` if the step doesn't remain.
#[tactic(auto, unfolding(crate::specs::Shown::node_of_step))]
pub fn node_of_step<'a, B: Allocator>(bench: &Bench<'a, B>, number: u64) -> Option<u16>
    ensures { result ≡ node_of_step bench.now.state.remaining number }
{
    match bench.remaining().find(number) {
        Some(kept) => Some(kept.node),
        None => None,
    }
}

/// Asks for the undo of a step, and drops the reply. Only refused memory is an error.
fn undo<'a, B: Allocator>(bench: &mut Bench<'a, B>, actor: u16, number: u64) -> Result<(), Oom>
    ensures { OnOk result (bench.new ≡ after_act bench.old actor (Undo number)) }
{
    let act = Act::Undo(number);
    let reply = reply_of(bench, actor, &act);
    // form: drop before exit
    drop(act);
    reply.map(drop)
}

/// Undoes a step, and adds to `moved` what the undo changed in the online list of the step's node; gives `moved` back.
/// The bench must be able to undo the step: it remains, and has no consequence.
fn undo_one<'a, B: Allocator>(
    bench: &mut Bench<'a, B>,
    actor: u16,
    number: u64,
    moved: Vec<Moved<'a, B>, &'a B>,
    alloc: &'a B,
) -> Result<Vec<Moved<'a, B>, &'a B>, Oom>
    requires { undo_reply bench.old.state number ≡ Undone number }
    ensures bench { OnOk result (bench.new ≡ after_act bench.old actor (Undo number)) }
    ensures moved { IfOk result (λ more. (start : Machine) → AreMoved start bench.old moved.entry.items → AreMoved start bench.new more.items) }
{
    // form: each hands out what the proof cites
    bench.bench_law();
    unwind_law();
    online_law();
    let node = node_of_step(bench, number);
    let step = step_diff(bench, number, alloc)?;
    undo(bench, actor, number)?;
    add_at(moved, node, step)
}

/// Undoes the steps with these numbers in turn, and gives for each node the rows that left and joined its online list
/// in these undos. The bench must be able to undo each step once it has undone those that stand earlier in `numbers`.
pub fn undo_each<'a, B: Allocator>(
    bench: &mut Bench<'a, B>,
    actor: u16,
    numbers: &[u64],
    alloc: &'a B,
) -> Result<Vec<Moved<'a, B>, &'a B>, Oom>
    requires { AreMade bench.old actor numbers.now }
    ensures bench { OnOk result (bench.new ≡ after_undos bench.old actor numbers.now) }
    ensures moved { IfOk result (λ moved. AreMoved bench.old bench.new moved.items) }
{
    let mut moved = none_moved(bench, alloc)?;
    for number in numbers {
        moved = undo_one(bench, actor, *number, moved, alloc)?;
    }
    Ok(moved)
}
