//! Laws of sets of dots, each the contract of a function that does nothing.

ghost use Rattle.dots_core.specs.Contexts.{OnePartLaw, PartLaw};

/// A set has one context clock and one cloud for each name. So two equal sets have the same context clocks and clouds.
pub fn one_part_law()
    ensures { OnePartLaw }
{}

/// Two sets with the same context clock and cloud of one name, and the same dots of the other names, are the same set.
/// So `set_part` with what `part_of` or `drop_name` gave for a name restores the name's dots.
pub fn part_law()
    ensures { PartLaw }
{}
