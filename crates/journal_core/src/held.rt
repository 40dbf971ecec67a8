//! `Held`: a kept step with its inverse, which may be lent.
ghost use Rattle.std.specs.Prelude.{◌≡◌, None, Some, option_map};
ghost use Rattle.node_core.specs.Inverses.{plain_inverse};

use crate::kept::Kept;
use node_core::Inverse;
use std::alloc::Allocator;
use std::marker::Model;

/// A kept step with its inverse, unless that is lent.
#[derive(Drop)]
pub(crate) struct Held<'a, B: Allocator> {
    kept: Kept<&'a B>,
    inverse: Option<Inverse<&'a B>>,
}

impl<'a, B: Allocator> Model for Held<'a, B> {
    ghost use Rattle.std.specs.Prelude.{option_map};
    ghost use Rattle.node_core.specs.Inverses.{plain_inverse};
    ghost use Rattle.journal_core.specs.Holdings.{Held, held_code};

    ghost Value = { Held };

    ghost coded = { held_code };

    ghost view = { λ h. record { kept = h.kept; inverse = option_map plain_inverse h.inverse } };
}

impl<'a, B: Allocator> Held<'a, B> {
    pub(crate) fn new(kept: Kept<&'a B>, inverse: Inverse<&'a B>) -> Held<'a, B>
        ensures { result ≡ record { kept = kept.entry; inverse = Some (plain_inverse inverse.entry) } }
    {
        Held {
            kept,
            inverse: Some(inverse),
        }
    }

    pub(crate) fn kept(&self) -> &Kept<&'a B>
        ensures { result.now ≡ self.now.kept }
    {
        &self.kept
    }

    /// The inverse; `None` if it is lent.
    pub(crate) fn inverse(&self) -> Option<&Inverse<&'a B>>
        ensures { option_map (λ i. plain_inverse i.now) result ≡ self.now.inverse }
    {
        self.inverse.as_ref()
    }

    pub(crate) fn number(&self) -> u64
        ensures { result ≡ self.now.kept.number }
    {
        self.kept.number
    }

    pub(crate) fn node(&self) -> u16
        ensures { result ≡ self.now.kept.node }
    {
        self.kept.node
    }

    /// Gives the inverse out; `None` if it is lent already.
    pub(crate) fn lend(&mut self) -> Option<Inverse<&'a B>>
        ensures value { option_map plain_inverse result ≡ self.old.inverse }
        ensures after { self.new ≡ record { kept = self.old.kept; inverse = None } }
    {
        self.inverse.take()
    }

    /// Puts the inverse beside the step. One that is there already is dropped.
    pub(crate) fn put_back(&mut self, inverse: Inverse<&'a B>)
        ensures { self.new ≡ record { kept = self.old.kept; inverse = Some (plain_inverse inverse.entry) } }
    {
        drop(self.inverse.replace(inverse));
    }
}
