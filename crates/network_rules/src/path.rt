//! A path: the places of a run's steps among the recorded steps.
ghost use Rattle.std.specs.Prelude.{◌≡◌, ◌++◌, ◌∷◌, [], IfOk, OnOk};

use dots_core::Oom;
use std::alloc::Allocator;

/// Appends the place of the run's next step to the path.
pub fn extend<A: Allocator>(path: &mut Vec<usize, A>, place: usize) -> Result<(), Oom>
    ensures { OnOk result (path.new.items ≡ path.old.items ++ place ∷ []) }
{
    path.push(place)?;
    Ok(())
}

/// A copy of the path, as the run of an outcome.
pub fn run_of<'a, B: Allocator>(path: &[usize], alloc: &'a B) -> Result<Vec<usize, &'a B>, Oom>
    ensures { IfOk result (λ run. run.items ≡ path.now) }
{
    Vec::from_slice(alloc, path)
}
