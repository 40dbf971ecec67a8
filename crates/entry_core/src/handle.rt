//! `Handle`, an entry that several lists may share.
ghost use Rattle.std.specs.Prelude.{◌≡◌, IfErr, IfOk, true};
ghost use Rattle.entry_core.specs.Short.{IsShort};

use crate::entry::Entry;
use dots_core::{Dot, Oom};
use std::alloc::Allocator;
use std::marker::Model;
use std::sync::Arc;

/// The entry of a handle, in memory that other handles may share or not.
#[derive(Drop)]
pub enum Holder<A: Allocator> {
    /// No other handle has the entry.
    Own(Box<Entry<A>, A>),
    /// Other handles may have the entry. Its words are all stored inline.
    Shared(Arc<Entry<A>, A>),
}

/// One entry, in a box or behind a counted pointer. Copies of the handle share the entry if `of` made the handle and
/// all words of the entry are stored inline; otherwise each copy has its own. A contract sees the entry.
#[derive(Drop)]
pub struct Handle<A: Allocator> {
    holder: Holder<A>,
}

impl<A: Allocator> Model for Handle<A> {
    ghost use Rattle.entry_core.specs.Presences.{Entry as Plain};

    ghost Value = { Plain };

    ghost use Rattle.entry_core.specs.Holders.{IsHeld, held};

    ghost view = { λ h. held h.holder };

    ghost invariant = { λ h. IsHeld h.holder };
}

impl<A: Allocator> Handle<A> {
    /// A handle of the entry. If memory is refused, the entry comes back.
    pub fn of(entry: Entry<A>, alloc: A) -> Result<Handle<A>, Entry<A>>
        ensures ok { IfOk result (λ handle. handle ≡ entry) }
        ensures given_back { IfErr result (λ back. back ≡ entry) }
    {
        if entry.is_short() {
            match Arc::new(alloc, entry) {
                Ok(shared) => Ok(Handle {
                    holder: Holder::Shared(shared),
                }),
                Err(failed) => Err(failed.value),
            }
        } else {
            match Box::new(alloc, entry) {
                Ok(own) => Ok(Handle {
                    holder: Holder::Own(own),
                }),
                Err(failed) => Err(failed.value),
            }
        }
    }

    /// A handle of `entry`, with the box `own` as its memory; the entry that was in the box is dropped. Copies of the
    /// handle don't share the entry.
    pub(crate) fn in_box(entry: Entry<A>, own: Box<Entry<A>, A>) -> Handle<A>
        ensures { result ≡ entry }
    {
        let mut own = own;
        *own = entry;
        Handle {
            holder: Holder::Own(own),
        }
    }

    /// A reference to the entry, which may be in a box or shared; nothing is copied.
    pub fn entry(&self) -> &Entry<A>
        ensures { result.now ≡ self.now }
    {
        match &self.holder {
            Holder::Own(own) => own,
            Holder::Shared(shared) => shared,
        }
    }

    /// The dot of the handle's entry.
    pub fn dot(&self) -> Dot
        ensures { result ≡ self.now.dot }
    {
        self.entry().dot
    }

    /// Whether the entry's words are all stored inline.
    pub fn is_short(&self) -> bool
        ensures { result ≡ true → IsShort self.now }
    {
        match &self.holder {
            Holder::Own(own) => own.is_short(),
            Holder::Shared(_) => true,
        }
    }

    /// Moves the entry out of the handle, or copies it if other handles share it. It takes no memory.
    pub fn into_entry(self) -> Entry<A>
        ensures { result ≡ self }
    {
        match self.holder {
            Holder::Own(own) => Box::into_inner(own),
            Holder::Shared(shared) => match Arc::try_unwrap(shared) {
                Ok(entry) => entry,
                Err(shared) => shared.copy_short(),
            },
        }
    }

    /// A handle of the same entry. An entry that may be shared is shared once more; any other is copied.
    pub fn try_share(&self, alloc: A) -> Result<Handle<A>, Oom>
        ensures { IfOk result (λ copy. copy ≡ self.now) }
    {
        let holder = match &self.holder {
            Holder::Own(own) => Holder::Own(Box::new(alloc, own.try_copy()?)?),
            Holder::Shared(shared) => Holder::Shared(Arc::try_clone(shared)?),
        };
        Ok(Handle { holder })
    }
}
