//! Finds an order of steps: again and again the search takes the first of the given steps that is the next one of its
//! node and delivers no unsent message. If the given steps deliver no message before it is sent, their order stays.
//!
//! For each node the search keeps the place of the node's next step, and the number of messages that the node has sent.
//! It chooses among the next steps of the nodes.
ghost use Rattle.std.specs.Prelude.{◌≡◌, ◌<◌, ◌≤◌, ℕ, [], Some, IfOk, drop, length, option_map, slice_get, true};
ghost use Rattle.order_core.specs.declared.mark.Mark.{Mark as PlainMark};
ghost use Rattle.order_core.specs.Marks.{order_of_marks};
ghost use Rattle.order_core.specs.Stands.{first_of, is_ready, left, next_at, was_sent, AreStands, IsFirstReady};

use crate::mark::Mark;
use dots_core::Oom;
use std::alloc::Allocator;

/// Where a node stands: the place of its next step, and how many messages it has sent. If it has no step left, the
/// place is the number of all steps.
#[derive(Clone, Copy)]
struct Stand {
    next: usize,
    sent: usize,
}

/// One more than the greatest node number in the marks; 0 if there are no marks.
fn count_nodes(marks: &[Mark]) -> usize
    ensures { (i : ℕ) (m : PlainMark) → slice_get marks.now i ≡ Some m → m.node < result }
{
    let mut count = 0;
    for mark in marks {
        count = count.max(mark.node as usize + 1);
    }
    count
}

/// The place of the node's first step at or after `from`; the number of all steps if there is none.
fn place_from(marks: &[Mark], node: usize, from: usize) -> usize
    requires { from ≤ length marks.now }
    ensures { result ≡ first_of node from (drop from marks.now) }
{
    for place in from..marks.len() {
        if marks[place].node as usize == node {
            return place;
        }
    }
    marks.len()
}

/// Where each node stands before the first step, by the node's number.
fn stands_of<A: Allocator>(alloc: A, marks: &[Mark]) -> Result<Vec<Stand, A>, Oom>
    ensures begins { IfOk result (λ stands. AreStands marks.now [] stands.items) }
    ensures all_left { IfOk result (λ stands. left (next_at marks.now stands.items) 0 marks.now ≡ marks.now) }
    ensures known { IfOk result (λ stands. (i : ℕ) (m : PlainMark) → slice_get marks.now i ≡ Some m → m.node < length stands.items) }
{
    let count = count_nodes(marks);
    let mut stands = Vec::with_capacity(alloc, count)?;
    for node in 0..count {
        stands.push_reserved(Stand {
            next: place_from(marks, node, 0),
            sent: 0,
        });
    }
    Ok(stands)
}

/// Whether the message that `delivers` names was sent; true if it names none.
fn was_sent(stands: &[Stand], delivers: Option<(u16, u64)>) -> bool
    ensures { result ≡ was_sent stands.now delivers }
{
    let Some((sender, number)) = delivers else {
        return true;
    };
    match stands.get(sender as usize) {
        Some(stand) => 0 < number && number <= stand.sent as u64,
        None => false,
    }
}

/// Whether there is a step at `place`, and the message that it delivers, if any, was sent.
fn is_ready(marks: &[Mark], stands: &[Stand], place: usize) -> bool
    ensures { result ≡ is_ready stands.now (slice_get marks.now place) }
{
    match marks.get(place) {
        Some(mark) => was_sent(stands, mark.delivers),
        None => false,
    }
}

/// The least place of a step that is ready (see `is_ready`) and the next one of its node; the number of all steps if
/// there is none.
fn next_place(marks: &[Mark], stands: &[Stand]) -> usize
    ensures { IsFirstReady marks.now stands.now result }
{
    let mut least = marks.len();
    for stand in stands {
        if stand.next < least && is_ready(marks, stands, stand.next) {
            least = stand.next;
        }
    }
    least
}

/// Whether each message is sent before it is delivered, if the steps come in the order of `marks`.
fn is_behind<A: Allocator>(alloc: A, marks: &[Mark]) -> Result<bool, Oom>
    ensures { IfOk result (λ behind. behind ≡ true → order_of_marks marks.now ≡ Some marks.now) }
{
    let mut stands = stands_of(alloc, marks)?;
    for mark in marks {
        if !was_sent(stands.as_slice(), mark.delivers) {
            return Ok(false);
        }
        let node = mark.node as usize;
        let stand = stands[node];
        stands[node] = Stand {
            next: stand.next,
            sent: stand.sent + mark.sends as usize,
        };
    }
    Ok(true)
}

/// Copies of the marks, in an order that keeps the order of each node's own steps, and in which no message is delivered
/// before it is sent; in the given order if that is such an order. `None` if there is no such order.
pub fn order<A: Allocator + Copy>(alloc: A, marks: &[Mark]) -> Result<Option<Vec<Mark, A>>, Oom>
    ensures { IfOk result (λ found. option_map (λ v. v.items) found ≡ order_of_marks marks.now) }
{
    if is_behind(alloc, marks)? {
        return Ok(Some(Vec::from_slice(alloc, marks)?));
    }
    let mut stands = stands_of(alloc, marks)?;
    let mut order = Vec::with_capacity(alloc, marks.len())?;
    while order.len() < marks.len() {
        let place = next_place(marks, stands.as_slice());
        let Some(mark) = marks.get(place) else {
            return Ok(None);
        };
        order.push_reserved(*mark);
        let node = mark.node as usize;
        let stand = stands[node];
        stands[node] = Stand {
            next: place_from(marks, node, place + 1),
            sent: stand.sent + mark.sends as usize,
        };
    }
    Ok(Some(order))
}
