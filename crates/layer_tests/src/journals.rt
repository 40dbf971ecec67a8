//! Journals: how a loan of an inverse ends, and which calls need no memory. A journal doesn't read inverses, so the
//! inverse of any step may stand beside any other step.
ghost use Rattle.std.specs.Prelude.{◌≡◌, ◌++◌, ◌∷◌, [], None, Some};
ghost use Rattle.node_core.specs.Operations.{plain};
ghost use Rattle.node_core.specs.Inverses.{plain_inverse};
ghost use Rattle.journal_core.specs.Journals.{first_consequence};
ghost use Rattle.journal_core.specs.Holdings.{AreAllHeld, CanBeKept, kepts, without_held};

use crate::benches::Heap;
use journal_core::{Journal, laws};
use node_core::{Inverse, Meter, Node, NodeLimits, Step};
use std::process::Abort;
use test_alloc::Refusing;

/// A journal of two nodes, without steps.
fn opened<'a>(heap: &'a Heap, rt: &impl Abort) -> Journal<'a, Heap>
    ensures nodes { result.nodes ≡ 2 }
    ensures steps { result.steps ≡ [] }
{
    Journal::new(heap, 2).expect(rt, "a journal")
}

/// The inverse of an up.
fn inverse<'a>(heap: &'a Heap, rt: &impl Abort) -> Inverse<&'a Heap> {
    let limits = NodeLimits {
        entries: 10,
        clock: 10,
        messages: 10,
    };
    let mut node = Node::new(heap, 0, limits);
    let step = Step::Up { name: 1 };
    let taken = node.take(&step, None, &mut Meter::new());
    let inverse = taken.expect(rt, "an inverse");
    drop(step);
    drop(node);
    inverse
}

/// Keeps the step as number 1 of node 0. The journal must not refuse it.
fn keeps<'a>(
    journal: &mut Journal<'a, Heap>,
    step: Step<&'a Heap>,
    inverse: Inverse<&'a Heap>,
    rt: &impl Abort,
)
    requires { CanBeKept journal.old 1 0 (plain step) }
    ensures nodes { journal.new.nodes ≡ journal.old.nodes }
    ensures steps { journal.new.steps ≡ journal.old.steps ++ (record {
      kept = record { number = 1; node = 0; step = plain step.entry };
      inverse = Some (plain_inverse inverse.entry);
    }) ∷ [] }
{
    let is_kept = match journal.keep(1, 0, step, inverse) {
        Ok(()) => true,
        Err((step, inverse, _oom)) => {
            drop(step);
            drop(inverse);
            false
        }
    };
    assert!(rt; is_kept);
}

/// Lends the inverse of step `number`, and puts it back.
fn lends_and_puts_back<'a>(journal: &mut Journal<'a, Heap>, number: u64, rt: &impl Abort)
    requires { AreAllHeld journal.old.steps }
    ensures { journal.new ≡ journal.old }
{
    // form: hands out the law of loans
    laws::loan_law();
    let inverse = journal.lend(number).expect(rt, "a step");
    journal.put_back(number, inverse);
}

/// Lends the inverse of step `number`, drops it, and takes the step out.
fn lends_and_takes_out<'a>(journal: &mut Journal<'a, Heap>, number: u64, rt: &impl Abort)
    requires held { AreAllHeld journal.old.steps }
    requires free { first_consequence (kepts journal.old.steps) number ≡ None }
    ensures nodes { journal.new.nodes ≡ journal.old.nodes }
    ensures steps { journal.new.steps ≡ without_held journal.old.steps number }
{
    // form: hands out the law of loans
    laws::loan_law();
    let inverse = journal.lend(number).expect(rt, "a step");
    drop(inverse);
    journal.take_out(number);
}

/// Whether the journal begins with step 1, of node 0.
fn has_first<'a>(journal: &Journal<'a, Heap>) -> bool {
    match (journal.at(0), journal.find(1)) {
        (Some(first), Some(found)) => first.number == 1 && found.node == 0,
        _ => false,
    }
}

/// Keeps a send for which room was made, lends its inverse and puts it back, lends it again, and takes the send out.
fn keeps_and_lends<'a>(journal: &mut Journal<'a, Heap>, inverse: Inverse<&'a Heap>, rt: &impl Abort)
    requires nodes { journal.old.nodes ≡ 2 }
    requires steps { journal.old.steps ≡ [] }
{
    keeps(journal, Step::Broadcast, inverse, rt);
    lends_and_puts_back(journal, 1, rt);
    holds!(rt, has_first(journal));
    lends_and_takes_out(journal, 1, rt);
    holds!(rt, journal.len() == 0 && journal.find(1).is_none());
}

/// Makes room for a broadcast of node 0, and then for an up of node 1. Says whether memory sufficed for both.
fn makes_room<'a>(journal: &mut Journal<'a, Heap>) -> bool
    requires { journal.old.nodes ≡ 2 }
    ensures nodes { journal.new.nodes ≡ 2 }
    ensures steps { journal.new.steps ≡ journal.old.steps }
{
    let is_made = journal.make_room(0, &Step::Broadcast).is_ok();
    is_made && journal.make_room(1, &Step::Up { name: 0 }).is_ok()
}

/// A step for which room was made is kept without memory. A loan takes none, whether the inverse is put back, or is
/// dropped and its step taken out. Room that was made for a step stays while room is made for another.
fn takes_no_memory<'a>(
    journal: &mut Journal<'a, Heap>,
    inverse: Inverse<&'a Heap>,
    heap: &'a Heap,
    rt: &impl Abort,
)
    requires nodes { journal.old.nodes ≡ 2 }
    requires steps { journal.old.steps ≡ [] }
{
    holds!(rt, makes_room(journal));
    heap.refuse_from(1);
    keeps_and_lends(journal, inverse, rt);
    holds!(rt, heap.requests() == 0);
}

#[test]
fn a_step_with_room_and_its_loans_take_no_memory(rt: HostRuntime) {
    let heap = Refusing::new(rt.alloc());
    let mut journal = opened(&heap, &rt);
    takes_no_memory(&mut journal, inverse(&heap, &rt), &heap, &rt);
    drop(journal);
}

/// A journal that is refused memory makes no room, and gives a step back with its inverse instead of keeping it.
fn keeps_nothing<'a>(
    journal: &mut Journal<'a, Heap>,
    inverse: Inverse<&'a Heap>,
    heap: &'a Heap,
    rt: &impl Abort,
)
    requires nodes { journal.old.nodes ≡ 2 }
    requires steps { journal.old.steps ≡ [] }
{
    heap.refuse_from(1);
    holds!(rt, journal.make_room(0, &Step::Broadcast).is_err());
    let is_given_back = match journal.keep(1, 0, Step::Broadcast, inverse) {
        Ok(()) => false,
        Err((step, inverse, _oom)) => {
            let is_given_back = matches!(step, Step::Broadcast);
            drop(step);
            drop(inverse);
            is_given_back
        }
    };
    holds!(rt, is_given_back && journal.len() == 0);
}

#[test]
fn a_step_that_is_refused_memory_is_not_kept(rt: HostRuntime) {
    let heap = Refusing::new(rt.alloc());
    let mut journal = opened(&heap, &rt);
    keeps_nothing(&mut journal, inverse(&heap, &rt), &heap, &rt);
    drop(journal);
}

/// With all memory refused, a journal is made if and only if it asks for none.
#[test]
fn a_journal_is_made_if_no_memory_is_refused(rt: HostRuntime) {
    let heap = Refusing::new(rt.alloc());
    heap.refuse_from(1);
    let is_made = Journal::new(&heap, 2).err().is_none();
    holds!(&rt, is_made == (heap.requests() == 0));
}
