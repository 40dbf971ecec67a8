//! Sets of names: the set of all, the names that two sets have in common, and whether one set is within another.
ghost use Rattle.std.specs.Prelude.{◌≡◌, ◌<◌, ℕ, IsTrue, true, if◌then◌else◌};
ghost use Rattle.std.specs.FinSet.{contains};
ghost use Rattle.std.specs.FinSet as set;
ghost use Rattle.dots_core.specs.Names.{most_names};
ghost use Rattle.network_rules.specs.NameSets.{all_names};

use dots_core::NameSet;

/// All 32 names.
pub fn all_names() -> NameSet
    ensures { result ≡ all_names }
{
    let mut names = NameSet::empty();
    for name in 0..32u16 {
        names = names.with(name);
    }
    names
}

/// `names`, with `name` added to them if `wanted` is true.
fn with_if(names: NameSet, name: u16, wanted: bool) -> NameSet
    requires { name < most_names }
    ensures { result ≡ (if wanted then set.insert names name else names) }
{
    if wanted { names.with(name) } else { names }
}

/// The names that both sets have.
pub(crate) fn common(one: NameSet, other: NameSet) -> NameSet
    ensures { (n : ℕ) → contains one n ≡ true → contains other n ≡ true → contains result n ≡ true }
{
    let mut names = NameSet::empty();
    for name in 0..32u16 {
        // form: `&` has no branch that the proof would go through
        names = with_if(names, name, one.has(name) & other.has(name));
    }
    // form: hands out what the value keeps
    one.names_law();
    names
}

/// Whether `other` has all names of `one`.
pub(crate) fn is_within(one: NameSet, other: NameSet) -> bool
    ensures { IsTrue result → (n : ℕ) → contains one n ≡ true → contains other n ≡ true }
{
    for name in 0..32u16 {
        if one.has(name) && !other.has(name) {
            return false;
        }
    }
    // form: hands out what the value keeps
    one.names_law();
    true
}
