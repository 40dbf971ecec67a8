//! `View`: which names are known, and which of them are up.
ghost use Rattle.std.specs.Prelude.{◌≡◌, ◌↔◌, ◌<◌, IsTrue, true};
ghost use Rattle.std.specs.FinMap as fin;
ghost use Rattle.dots_core.specs.Names.{most_names};
ghost use Rattle.replica_core.specs.Views.{AreKnown, known_of, with_old};
ghost use Rattle.replica_core.specs.declared.status.Status.TheVariants.{Up, Down};

use crate::status::Status;
use dots_core::NameSet;
use std::marker::Model;

/// The known names, each up or down. A contract sees a finite map from names to statuses.
#[derive(Drop)]
pub struct View {
    known: NameSet,
    up: NameSet,
}

impl Model for View {
    ghost use Rattle.std.specs.FinSet as set;
    ghost use Rattle.replica_core.specs.Views.{View, view_code, view_of, AreUpKnown};

    ghost Value = { View };

    ghost coded = { view_code };

    ghost view = { λ v. view_of (set.items v.known) v.up };

    ghost invariant = { λ v. AreUpKnown v.known v.up };
}

impl View {
    /// A view that knows the own name alone, as up.
    pub fn opening(own: u16) -> View
        requires { own < most_names }
        ensures { result ≡ fin.insert fin.empty own Up }
    {
        let own = NameSet::empty().with(own);
        View {
            known: own,
            up: own,
        }
    }

    /// The status of the name; `None` if the name isn't known.
    pub fn status(&self, name: u16) -> Option<Status>
        ensures { result ≡ fin.get self.now name }
    {
        if !self.known.has(name) {
            return None;
        }
        if self.up.has(name) {
            Some(Status::Up)
        } else {
            Some(Status::Down)
        }
    }

    /// The known names.
    pub fn known(&self) -> NameSet
        ensures names { result ≡ known_of self.now }
        ensures known { AreKnown self.now result }
    {
        self.known
    }

    /// Makes the name known and up.
    pub fn raise(&mut self, name: u16)
        requires { name < most_names }
        ensures { self.new ≡ fin.insert self.old name Up }
    {
        self.known = self.known.with(name);
        self.up = self.up.with(name);
    }

    /// Makes the known name down.
    pub fn lower(&mut self, name: u16)
        requires name { name < most_names }
        requires known { fin.contains_key self.old name ≡ true }
        ensures { self.new ≡ fin.insert self.old name Down }
    {
        self.up = self.up.without(name);
    }

    /// Forgets the name. If it isn't known, nothing changes.
    pub fn forget(&mut self, name: u16)
        requires { name < most_names }
        ensures { self.new ≡ fin.remove self.old name }
    {
        self.known = self.known.without(name);
        self.up = self.up.without(name);
    }

    /// Gives the name this status, or forgets the name if `status` is `None`.
    pub fn put(&mut self, name: u16, status: Option<Status>)
        requires { name < most_names }
        ensures { self.new ≡ with_old name status self.old }
    {
        match status {
            Some(status) => self.put_known(name, status),
            None => self.forget(name),
        }
    }

    /// Gives the name this status, whether it was known or not.
    fn put_known(&mut self, name: u16, status: Status)
        requires { name < most_names }
        ensures { self.new ≡ fin.insert self.old name status }
    {
        match status {
            Status::Up => self.raise(name),
            Status::Down => {
                self.raise(name);
                self.lower(name);
            }
        }
    }

    /// Whether both have the same names with the same statuses.
    pub fn same(&self, other: &View) -> bool
        ensures { IsTrue result ↔ (self.now ≡ other.now) }
    {
        self.known.same(other.known) && self.up.same(other.up)
    }

    /// A copy of the view. It takes no memory.
    pub fn copy(&self) -> View
        ensures { result ≡ self.now }
    {
        View {
            known: self.known,
            up: self.up,
        }
    }
}
