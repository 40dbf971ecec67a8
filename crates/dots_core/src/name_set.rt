//! A set of replicas' names.

ghost use Rattle.std.specs.Prelude.{◌≡◌, ◌<◌, ◌↔◌, IsTrue, nat_lt};
ghost use Rattle.std.specs.List.{list_all};
ghost use Rattle.std.specs.FinSet as set;
ghost use Rattle.dots_core.specs.Names.{most_names, AreNamesBelow, HasAll};

use crate::dot::MOST_NAMES;
use std::marker::Model;

/// A set of numbers below `MOST_NAMES`, each a replica's name.
#[derive(Clone, Copy, Debug)]
pub struct NameSet {
    has: [bool; 32],
}

impl Model for NameSet {
    ghost use Rattle.std.specs.Prelude.{◌≡◌, length};
    ghost use Rattle.std.specs.Coded.{coded_ℕ};
    ghost use Rattle.std.specs.FinSet as set;
    ghost use Rattle.dots_core.specs.Names.{most_names, Names};
    ghost use Rattle.dots_core.specs.Flags.{names_of_flags, flags_of};
    ghost use Rattle.dots_core.specs.FlagsBack.{flags_of-names_of_flags};

    ghost Value = { Names };

    ghost coded = { set.code coded_ℕ };

    ghost view = { λ s. names_of_flags s.has };

    ghost invariant = { λ s. length s.has ≡ most_names };

    ghost inverse = { λ names. record { has = flags_of names } };

    ghost inverse_ok = { λ s h i. record { has = flags_of-names_of_flags s.has h i } };
}

impl NameSet {
    /// The empty set.
    pub fn empty() -> NameSet
        ensures { result ≡ set.empty }
    {
        NameSet { has: [false; 32] }
    }

    /// The set with the name put in.
    pub fn with(mut self, name: u16) -> NameSet
        requires { name < most_names }
        ensures { result ≡ set.insert self name }
    {
        self.has[usize::from(name)] = true;
        self
    }

    /// The set with the name taken out.
    pub fn without(mut self, name: u16) -> NameSet
        requires { name < most_names }
        ensures { result ≡ set.remove self name }
    {
        self.has[usize::from(name)] = false;
        self
    }

    /// Whether the name is in the set. A number from 32 on never is.
    pub fn has(self, name: u16) -> bool
        ensures { result ≡ set.contains self name }
    {
        name < MOST_NAMES && self.has[usize::from(name)]
    }

    /// Whether each name in the set is below `count`.
    pub fn is_below(self, count: u16) -> bool
        ensures { result ≡ list_all (λ name. nat_lt name count) (set.items self) }
    {
        self.has.iter().skip(usize::from(count)).all(|has| !*has)
    }

    /// Whether the two sets have the same names.
    pub fn same(self, other: NameSet) -> bool
        ensures { IsTrue result ↔ (self ≡ other) }
    {
        self.has == other.has
    }

    /// Does nothing. Its contract says that each of the names is below `MOST_NAMES`.
    pub fn names_law(self)
        ensures { AreNamesBelow most_names self }
    {
        // form: the proof reads the field here
        let _ = &self.has;
    }

    /// The set of all names.
    pub(crate) fn all() -> NameSet
        ensures { HasAll result }
    {
        NameSet { has: [true; 32] }
    }
}
