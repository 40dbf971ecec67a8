//! Tests of the crates from `dots_core` to `bench_core`, of `diff_core`, `order_core`, `explore_network`, `page_data`
//! and `test_alloc`, in a crate of their own, so that those crates are proved once. `grammar_core` reads the tests'
//! scripts, `run_core` plays some of these, and `progress_core` has the watchers of long work. This crate has no code
//! but the tests.
//!
//! Most tests say what only a call can show and no clause says: that calls succeed with memory, what a refusal of
//! memory leaves, which calls take none, from which allocator memory is taken, and what an inverse keeps. The others go
//! through small cases worked by hand. Most tables of calls with their replies, of lists and of clocks are data of
//! `example_tests`, where they cost no proof.
//!
//! A test drops large values by name before it ends or asserts, since ways out with many live values are costly to
//! prove.
//!
//! The modules in reading order: `cases`, assertions; `refusing`, tests of the allocator of `test_alloc`; `dots`, sets
//! of dots; `benches`, from a script to a bench that has played its acts, which prepares most tests; `payloads`, words,
//! entries and messages; `journals`, loans of inverses; `inverses`, what is kept of each step; `undone`, steps of nodes
//! taken back; `memory` and `unwinds`, what refused memory leaves of a bench; `clusters`, nodes without a bench;
//! `costs`, the bytes of a join and its undo; `wide`, large values; `reads`, the calls that take no memory; `names`,
//! names and limits; `swaps`, from the steps of one bench to those of another; `orders`, `networks` and `pages`, small
//! runs worked by hand; `lists`, how online lists differ; `laws`, that the laws can be used on any bench.
#![tactic(auto)]

/// An assertion as a call, which names its own text if it fails. An `assert!` here would add an exit, which is costly
/// to prove where many values are live.
#[cfg(test)]
macro_rules! holds {
    ($rt:expr, $is_so:expr $(,)?) => {
        $crate::cases::holds($rt, $is_so, stringify!($is_so))
    };
}

#[cfg(test)]
mod benches;
#[cfg(test)]
mod cases;
#[cfg(test)]
mod clusters;
#[cfg(test)]
mod costs;
#[cfg(test)]
mod dots;
#[cfg(test)]
mod inverses;
#[cfg(test)]
mod journals;
#[cfg(test)]
mod laws;
#[cfg(test)]
mod lists;
#[cfg(test)]
mod memory;
#[cfg(test)]
mod names;
#[cfg(test)]
mod networks;
#[cfg(test)]
mod orders;
#[cfg(test)]
mod pages;
#[cfg(test)]
mod payloads;
#[cfg(test)]
mod reads;
#[cfg(test)]
mod refusing;
#[cfg(test)]
mod swaps;
#[cfg(test)]
mod undone;
#[cfg(test)]
mod unwinds;
#[cfg(test)]
mod wide;
