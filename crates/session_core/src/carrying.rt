//! `carry`: a session's text in the form of the latest version, the second.
ghost use Rattle.std.specs.Prelude.{IfErr, IfOk};
ghost use Rattle.recording_core.specs.Sessions.{IsCarried, Refuses};

use crate::loading::load;
use crate::saving::save;
use recording_core::SessionFault;
use std::alloc::{Allocator, Global};

/// Like `carry`, but the bench takes its memory from `alloc`.
fn carry_over<'a, B: Allocator>(
    bytes: &[u8],
    alloc: &'a B,
    heap: Global,
) -> Result<Vec<u8>, SessionFault>
    ensures carried { IfOk result (λ text. IsCarried bytes.now text.items) }
    ensures refused { IfErr result (Refuses bytes.now) }
{
    let bench = load(heap, alloc, bytes)?;
    let saved = save(heap, &bench);
    // form: drop before exit
    bench.discard();
    match saved {
        Ok(text) => Ok(text),
        Err(_) => Err(SessionFault::OutOfMemory),
    }
}

/// Loads the session in these bytes, which may be of either version, and saves its bench as a session of version 2.
/// Once loaded, the new session gives a bench with the same names, limits and recorded calls, and so with the same
/// remaining steps and the same cluster. `carry` refuses what `load` refuses, in the same order. All memory is from the
/// global heap.
pub fn carry(heap: Global, bytes: &[u8]) -> Result<Vec<u8>, SessionFault>
    ensures carried { IfOk result (λ text. IsCarried bytes.now text.items) }
    ensures refused { IfErr result (Refuses bytes.now) }
{
    carry_over(bytes, &heap, heap)
}
