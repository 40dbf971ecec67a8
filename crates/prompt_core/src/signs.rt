//! The sign before each line that is read: the number of the next step.
ghost use Rattle.std.specs.Prelude.{◌≡◌, IfOk, string_bytes};
ghost use Rattle.prompt_core.specs.Signs.{ShowsSign, next_step, sign};

use crate::out::put_out;
use dots_core::Oom;
use run_core::Prompt;
use std::alloc::Allocator;
use std::io::Write;

/// The number that the next step will have; 1 before the nodes are named.
fn next_step<'a, B: Allocator>(prompt: &Prompt<'a, B>) -> u64
    ensures { result ≡ next_step prompt.now.machine }
{
    match prompt.bench() {
        Some(bench) => {
            // form: hands out what the bench keeps
            bench.bench_law();
            bench.meter() + 1
        }
        None => 1,
    }
}

/// The sign: `N> `, where N is the number of the next step.
#[tactic(auto, unfolding(crate::specs::Signs::sign))]
fn sign<'a, B: Allocator>(prompt: &Prompt<'a, B>, alloc: &'a B) -> Result<String<&'a B>, Oom>
    ensures { IfOk result (λ text. string_bytes text ≡ sign prompt.now) }
{
    let number = next_step(prompt);
    Ok(format!(in alloc; "{number}> ")?)
}

/// If `is_shown`, writes the sign to `errors`, flushes `errors`, and gives `true`. Gives `false` if `is_shown` is
/// `false`, memory for the sign was refused, or the write or the flush failed; in the last two cases any beginning of
/// the sign may have been written. After a `false`, `respond_each` shows no further sign.
pub fn show_sign<'a, B: Allocator, E: Write>(
    prompt: &Prompt<'a, B>,
    alloc: &'a B,
    errors: &mut E,
    is_shown: bool,
) -> bool
    ensures { ShowsSign is_shown (sign prompt.now) result (E.contents errors.old) (E.contents errors.new) }
{
    if !is_shown {
        return false;
    }
    let Ok(text) = sign(prompt, alloc) else {
        return false;
    };
    match put_out(errors, text.as_bytes()) {
        Ok(()) => true,
        Err(_) => false,
    }
}
