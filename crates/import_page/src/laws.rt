//! The law of the keys, as the contract of a function that does nothing.
ghost use Rattle.import_page.specs.Keys.{PlainLaw};

/// No `<` stands in the keys, so a page's data gets none from them.
pub fn plain_law()
    ensures { PlainLaw }
{}
