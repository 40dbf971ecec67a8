//! A run as a script that plays it.
ghost use Rattle.std.specs.Prelude.{◌≡◌, ◌++◌, [], IfOk, OnOk, string_bytes};
ghost use Rattle.transcript_core.specs.Runs.{run_text, step_lines};

use bench_core::{Kept, Names};
use dots_core::Oom;
use std::alloc::Allocator;
use transcript_core::{put_nodes_line, put_step_line};

/// Appends each step of the run as a line of a script.
#[tactic(auto, unfolding(transcript_core::specs::Runs::step_lines))]
fn put_steps<A: Allocator, N: Allocator, W: Allocator>(
    text: &mut String<A>,
    names: &Names<N>,
    run: &[Kept<W>],
) -> Result<(), Oom>
    ensures { OnOk result (string_bytes text.new ≡ string_bytes text.old ++ step_lines [] names.now run.now) }
{
    for kept in run {
        put_step_line(text, "", names, kept)?;
    }
    Ok(())
}

/// Appends the line `nodes NAME ..`, and each step on a line.
#[tactic(auto, unfolding(transcript_core::specs::Runs::run_text))]
fn put_run<A: Allocator, N: Allocator, W: Allocator>(
    text: &mut String<A>,
    names: &Names<N>,
    run: &[Kept<W>],
) -> Result<(), Oom>
    ensures { OnOk result (string_bytes text.new ≡ string_bytes text.old ++ run_text [] names.now run.now) }
{
    put_nodes_line(text, "", names)?;
    put_steps(text, names, run)
}

/// The run as a script: the line `nodes NAME ..`, and a line for each step.
pub(crate) fn script_of<A: Allocator, N: Allocator, W: Allocator>(
    names: &Names<N>,
    run: &[Kept<W>],
    alloc: A,
) -> Result<String<A>, Oom>
    ensures { IfOk result (λ text. string_bytes text ≡ run_text [] names.now run.now) }
{
    let mut text = String::new(alloc);
    put_run(&mut text, names, run)?;
    Ok(text)
}
