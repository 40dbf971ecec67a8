//! How a step changed the online list of its node, found by the inverse of the step. Where a function takes a `line`
//! beside the text, the line holds the text's end, not yet appended (see `Line`).
ghost use Rattle.std.specs.Prelude.{◌≡◌, ◌++◌, IfOk, None, OnOk, [], codes, string_bytes};
ghost use Rattle.node_core.specs.Inverses.{plain_inverse, LeadsSomewhere};
ghost use Rattle.journal_core.specs.Journals.{first_consequence};
ghost use Rattle.bench_core.specs.Acts.{plain_act};
ghost use Rattle.replica_core.specs.Changes.{back, plain_change, ChangeLeadsSomewhere};
ghost use Rattle.diff_core.specs.Diffs.{alone};
ghost use Rattle.diff_core.specs.Sorting.{online_of};
ghost use Rattle.report_core.specs.Rows.{change_lines, row_lines};
ghost use Rattle.report_core.specs.StepDiffs.{asked_undo, PutsRows, TellsInverse, TellsStep, TellsUndo};

use crate::line::Line;
use crate::rows::{put_entries, put_entry};
use bench_core::{Act, Bench, Inverse, Names, Node};
use diff_core::laws::{diff_law, one_list_law, online_law};
use diff_core::{Diff, FewRows, changed, few_given, few_taken, rows_given, rows_taken};
use dots_core::Oom;
use node_core::laws::change_law;
use replica_core::laws::back_law;
use replica_core::{Change, Replica};
use std::alloc::Allocator;

/// A difference without rows.
pub(crate) fn none<'a, B: Allocator>(alloc: &'a B) -> Diff<&'a B>
    ensures left { result.left.items ≡ [] }
    ensures joined { result.joined.items ≡ [] }
{
    Diff {
        left: Vec::new(alloc),
        joined: Vec::new(alloc),
    }
}

/// How the step of this inverse changed the online list of `node`; `node` must be as it was right after that step.
fn inverse_diff<'a, B: Allocator>(
    inverse: &Inverse<&'a B>,
    node: &Node<'a, B>,
    alloc: &'a B,
) -> Result<Diff<&'a B>, Oom>
    requires { LeadsSomewhere (plain_inverse inverse.now) node.now }
    ensures { IfOk result (λ diff. TellsInverse (plain_inverse inverse.now) node.now diff.left.items diff.joined.items) }
{
    // form: each hands out what the proof cites
    back_law();
    diff_law();
    one_list_law();
    online_law();
    change_law();
    match inverse.change() {
        Some(change) => changed(alloc, change, node.replica()),
        None => Ok(none(alloc)),
    }
}

/// How a step changed the online list of its node; no rows if the step doesn't remain. The step must have no
/// consequence.
pub fn step_diff<'a, B: Allocator>(
    bench: &Bench<'a, B>,
    number: u64,
    alloc: &'a B,
) -> Result<Diff<&'a B>, Oom>
    requires { first_consequence bench.now.state.remaining number ≡ None }
    ensures { IfOk result (λ diff. TellsStep bench.now number diff.left.items diff.joined.items) }
{
    let Some(inverse) = bench.way_back(number) else {
        return Ok(none(alloc));
    };
    let Some(kept) = bench.remaining().find(number) else {
        return Ok(none(alloc));
    };
    let Some(node) = bench.node(kept.node) else {
        return Ok(none(alloc));
    };
    inverse_diff(inverse, node, alloc)
}

/// Appends the rows that left the replica's online list in the call that gave `change`, each after `- `. `after` is the
/// replica after that call.
fn put_taken_rows<'a, B: Allocator>(
    text: &mut String<&'a B>,
    line: &mut Line,
    names: &Names<&'a B>,
    change: &Change<&'a B>,
    after: &Replica<&'a B>,
    alloc: &'a B,
) -> Result<(), Oom>
    requires { ChangeLeadsSomewhere (plain_change change.now) after.now }
    ensures { OnOk result (string_bytes text.new ++ line.new.bytes ≡ (string_bytes text.old ++ line.old.bytes) ++
        row_lines (codes "- ") names.now (alone (online_of (back (plain_change change.now) after.now)) (online_of after.now))) }
{
    match few_taken(change, after) {
        FewRows::Nothing => Ok(()),
        FewRows::One(row) => put_entry(text, line, "- ", names, &row),
        FewRows::More => put_entries(text, line, "- ", names, &rows_taken(alloc, change, after)?),
    }
}

/// Appends the rows that joined the replica's online list in the call that gave `change`, each after `+ `. `after` is
/// the replica after that call.
fn put_given_rows<'a, B: Allocator>(
    text: &mut String<&'a B>,
    line: &mut Line,
    names: &Names<&'a B>,
    change: &Change<&'a B>,
    after: &Replica<&'a B>,
    alloc: &'a B,
) -> Result<(), Oom>
    requires { ChangeLeadsSomewhere (plain_change change.now) after.now }
    ensures { OnOk result (string_bytes text.new ++ line.new.bytes ≡ (string_bytes text.old ++ line.old.bytes) ++
        row_lines (codes "+ ") names.now (alone (online_of after.now) (online_of (back (plain_change change.now) after.now)))) }
{
    match few_given(change, after) {
        FewRows::Nothing => Ok(()),
        FewRows::One(row) => put_entry(text, line, "+ ", names, &row),
        FewRows::More => put_entries(text, line, "+ ", names, &rows_given(alloc, change, after)?),
    }
}

/// Appends what `put_taken_rows` does, and then what `put_given_rows` does: the rows that the call of `change` took out
/// of the online list, and those that it put in.
#[tactic(auto, unfolding(crate::specs::Rows::change_lines))]
fn put_change_rows<'a, B: Allocator>(
    text: &mut String<&'a B>,
    line: &mut Line,
    names: &Names<&'a B>,
    change: &Change<&'a B>,
    after: &Replica<&'a B>,
    alloc: &'a B,
) -> Result<(), Oom>
    requires { ChangeLeadsSomewhere (plain_change change.now) after.now }
    ensures { OnOk result (string_bytes text.new ++ line.new.bytes ≡ (string_bytes text.old ++ line.old.bytes) ++
        change_lines names.now (alone (online_of (back (plain_change change.now) after.now)) (online_of after.now))
        (alone (online_of after.now) (online_of (back (plain_change change.now) after.now)))) }
{
    put_taken_rows(text, line, names, change, after, alloc)?;
    put_given_rows(text, line, names, change, after, alloc)
}

/// Appends how the step of this inverse changed the online list of `node`; `node` must be as it was right after that
/// step.
fn put_inverse<'a, B: Allocator>(
    text: &mut String<&'a B>,
    line: &mut Line,
    names: &Names<&'a B>,
    inverse: &Inverse<&'a B>,
    node: &Node<'a, B>,
    alloc: &'a B,
) -> Result<(), Oom>
    requires { LeadsSomewhere (plain_inverse inverse.now) node.now }
    ensures { OnOk result (PutsRows names.now (string_bytes text.old ++ line.old.bytes) (string_bytes text.new ++ line.new.bytes)
        (TellsInverse (plain_inverse inverse.now) node.now)) }
{
    // form: each hands out what the proof cites
    back_law();
    diff_law();
    one_list_law();
    online_law();
    change_law();
    match inverse.change() {
        Some(change) => put_change_rows(text, line, names, change, node.replica(), alloc),
        None => Ok(()),
    }
}

/// Appends how a step changed the online list of its node; nothing if the step doesn't remain. The step must have no
/// consequence.
pub(crate) fn put_step<'a, B: Allocator>(
    bench: &Bench<'a, B>,
    text: &mut String<&'a B>,
    line: &mut Line,
    number: u64,
    alloc: &'a B,
) -> Result<(), Oom>
    requires { first_consequence bench.now.state.remaining number ≡ None }
    ensures { OnOk result (PutsRows bench.now.names (string_bytes text.old ++ line.old.bytes) (string_bytes text.new ++ line.new.bytes)
        (TellsStep bench.now number)) }
{
    let Some(inverse) = bench.way_back(number) else {
        return Ok(());
    };
    let Some(kept) = bench.remaining().find(number) else {
        return Ok(());
    };
    let Some(node) = bench.node(kept.node) else {
        return Ok(());
    };
    put_inverse(text, line, bench.names(), inverse, node, alloc)
}

/// The number of the step whose undo an act asks for. An undo names that number; a back asks for the last remaining
/// step of the node that it names. `None` for a step, and for a back whose node has no remaining step or doesn't exist.
#[tactic(auto, unfolding(crate::specs::StepDiffs::asked_undo))]
pub fn asked_undo<'a, B: Allocator>(bench: &Bench<'a, B>, act: &Act<&'a B>) -> Option<u64>
    ensures { result ≡ asked_undo bench.now (plain_act act.now) }
{
    match act {
        Act::Do(_) => None,
        Act::Undo(number) => Some(*number),
        Act::Back(node) => {
            if *node as usize >= bench.names().len() {
                return None;
            }
            bench.remaining().last_of(*node)
        }
    }
}

/// How the step that the act asks to undo had changed the online list of its node. No rows if the act is a step, or if
/// the bench will refuse the undo.
pub fn undo_diff<'a, B: Allocator>(
    bench: &Bench<'a, B>,
    act: &Act<&'a B>,
    alloc: &'a B,
) -> Result<Diff<&'a B>, Oom>
    ensures { IfOk result (λ diff. TellsUndo bench.now (plain_act act.now) diff.left.items diff.joined.items) }
{
    let Some(number) = asked_undo(bench, act) else {
        return Ok(none(alloc));
    };
    if bench.remaining().first_consequence(number).is_some() {
        return Ok(none(alloc));
    }
    step_diff(bench, number, alloc)
}
