//! The law of an element's text, as the contract of a function that does nothing.
ghost use Rattle.svg_core.specs.Grammar.{DocumentLaw};

/// The text of an element is a document of XML, whatever texts and values stand in the element, if each name of a tag
/// or an attribute is an ASCII letter followed by ASCII letters, digits and dashes, and no two attributes of one tag
/// share a name.
pub fn document_law()
    ensures { DocumentLaw }
{}
