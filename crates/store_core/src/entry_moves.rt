//! Several entries of a set: taking them out one after another, and putting them back.
ghost use Rattle.std.specs.Prelude.{◌≡◌, ◌≤◌, IfOk, OnErr, OnOk};
ghost use Rattle.std.specs.FinMap as fin;
ghost use Rattle.entry_core.specs.EntryLists.{pairs};
ghost use Rattle.store_core.specs.EntryMoves.{AreNew, dots_of_pairs, found_each, with_each, without_each};

use crate::store_joins::put_shared;
use dots_core::{Dot, Oom};
use entry_core::Handle;
use payload_core::EntrySet;
use std::alloc::Allocator;

/// Handles of the entries at these dots, in the order of the dots. A dot without an entry gives none.
pub(crate) fn handles_of<A: Allocator + Copy>(
    entries: &EntrySet<A>,
    dots: &[Dot],
    alloc: A,
) -> Result<Vec<Handle<A>, A>, Oom>
    ensures { IfOk result (λ handles. pairs handles.items ≡ found_each dots.now entries.now.map) }
{
    let mut handles = Vec::with_capacity(alloc, dots.len())?;
    for dot in dots {
        if let Some(handle) = entries.handle(*dot)? {
            handles.push(handle)?;
        }
    }
    Ok(handles)
}

/// Takes out the entries at these dots; a dot without an entry is passed over. It takes no memory.
pub(crate) fn take_out_each<A: Allocator>(entries: &mut EntrySet<A>, dots: &[Dot])
    ensures map { entries.new.map ≡ without_each dots.now entries.old.map }
    ensures room { entries.old.room ≤ entries.new.room }
{
    for dot in dots {
        entries.discard(*dot);
    }
}

/// Inserts the entries of `handles`, each by a further handle; if memory is refused, none of them.
pub(crate) fn put_each<A: Allocator + Copy>(
    entries: &mut EntrySet<A>,
    handles: &[Handle<A>],
) -> Result<(), Oom>
    requires { AreNew (pairs handles.now) entries.old.map }
    ensures ok { OnOk result (entries.new.map ≡ with_each (pairs handles.now) entries.old.map) }
    ensures err { OnErr result (entries.new.map ≡ entries.old.map) }
{
    if let Err(failed) = put_some(entries, handles) {
        discard_each(entries, handles);
        return Err(failed);
    }
    Ok(())
}

/// Inserts the entries of `handles`, each by a further handle. If memory is refused, some may be in.
fn put_some<A: Allocator + Copy>(
    entries: &mut EntrySet<A>,
    handles: &[Handle<A>],
) -> Result<(), Oom>
    requires { AreNew (pairs handles.now) entries.old.map }
    ensures ok { OnOk result (entries.new.map ≡ with_each (pairs handles.now) entries.old.map) }
    ensures err { OnErr result (without_each (dots_of_pairs (pairs handles.now)) entries.new.map ≡ entries.old.map) }
{
    for handle in handles {
        put_shared(entries, handle)?;
    }
    Ok(())
}

/// Takes out the entries at the dots of these handles, as `take_out_each` does at dots. It takes no memory.
pub(crate) fn discard_each<A: Allocator>(entries: &mut EntrySet<A>, handles: &[Handle<A>])
    ensures { entries.new.map ≡ without_each (dots_of_pairs (pairs handles.now)) entries.old.map }
{
    for handle in handles {
        entries.discard(handle.dot());
    }
}
