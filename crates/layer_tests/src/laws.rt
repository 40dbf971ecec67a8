//! The laws can be used on any bench: the bench's contracts say what the laws ask for. Each function calls the laws on
//! which its own contract stands.
ghost use Rattle.std.specs.Prelude.{◌≡◌, ℕ, List, Ok, Some, None, length, map};
ghost use Rattle.journal_core.specs.Journals.{Kept, NumbersRise, steps_before, find_number, first_consequence, without};
ghost use Rattle.journal_core.specs.Futures.{IsFuture};
ghost use Rattle.bench_core.specs.declared.reply.Reply.TheVariants.{Undone};
ghost use Rattle.bench_core.specs.Limits.{node_limits};
ghost use Rattle.bench_core.specs.Clusters.{Cluster};
ghost use Rattle.bench_core.specs.Runs.{runs};
ghost use Rattle.bench_core.specs.Laws.{with_node_of};
ghost use Rattle.bench_core.specs.Chains.{OwnChains};
ghost use Rattle.bench_core.specs.Machine.{cluster_of, config_of, replies_of};
ghost use Rattle.bench_core.specs.Unwinds.{undos};

use crate::benches::{Heap, opened};
use bench_core::laws::{chain_law, headline_law, middle_law, unwind_law};
use bench_core::{Bench, Journal, Limits};
use std::alloc::Allocator;
use std::process::Abort;
use test_alloc::Refusing;

/// The remaining steps run from empty nodes, and stand by rising number.
fn runs_in_order<'a, B: Allocator>(bench: &Bench<'a, B>)
    ensures runs { (c : Cluster) × (cluster_of bench.now ≡ Ok c) }
    ensures rises { NumbersRise 0 bench.now.state.remaining }
{
    bench.bench_law();
    headline_law();
}

/// Gives the journal of the remaining steps. Its inverses take each node back to the opening, step by step, through the
/// states that the node had in the run of these steps.
fn leads_back<'x, 'a, B: Allocator>(bench: &'x Bench<'a, B>) -> &'x Journal<'a, B>
    ensures { (c : Cluster) → cluster_of bench.now ≡ Ok c → OwnChains (node_limits bench.now.limits) (length bench.now.names) c result.now.steps }
{
    chain_law();
    bench.remaining()
}

/// A step without direct consequences can be left out, and then its node alone changes.
fn can_be_left_out<'a, B: Allocator>(bench: &Bench<'a, B>, number: u64)
    ensures { (k : Kept) (c : Cluster) → cluster_of bench.now ≡ Ok c → find_number bench.now.state.remaining number ≡ Some k →
        first_consequence bench.now.state.remaining number ≡ None →
        (old : Cluster)
        × (runs (node_limits bench.now.limits) (length bench.now.names) (steps_before bench.now.state.remaining number) ≡ Ok old)
        × (runs (node_limits bench.now.limits) (length bench.now.names) (without bench.now.state.remaining number) ≡ Ok (with_node_of k.node old c)) }
{
    // form: the parameter `number` is for the contract alone
    runs_in_order(bench);
    middle_law();
}

/// The undos of a step and of all that follows from it are made, greatest number first, whoever asks for them.
fn can_be_unwound<'a, B: Allocator>(bench: &Bench<'a, B>, number: u64)
    ensures { (actor : ℕ) (numbers : List ℕ) → IsFuture bench.now.state.remaining number numbers →
        replies_of (config_of bench.now) bench.now.state (undos actor numbers) ≡ map Undone numbers }
{
    // form: the parameter `number` is for the contract alone
    bench.bench_law();
    unwind_law();
}

/// Uses the laws on the bench, also for step 1, which need not remain. Says whether no step remains.
fn laws_hold<'a, B: Allocator>(bench: &mut Bench<'a, B>) -> bool {
    runs_in_order(bench);
    can_be_left_out(bench, 1);
    can_be_unwound(bench, 1);
    leads_back(bench).len() == 0
}

fn plays<'a>(script: &str, heap: &'a Heap, rt: &impl Abort) {
    let mut bench = opened(script, Limits::usual(), heap, rt);
    holds!(rt, laws_hold(&mut bench));
    drop(bench);
}

#[test]
fn laws_hold_of_a_bench(rt: HostRuntime) {
    let heap = Refusing::new(rt.alloc());
    plays("nodes a b", &heap, &rt);
}
