//! Laws of the seal of a configuration. Each function states a law of the definitions, and does nothing.

ghost use Rattle.ddt_laws.specs.Seals.Statements.{SealsAreOne, SealedTextsAreTaken};

/// A configuration has one seal.
pub fn seals_are_one()
    ensures { SealsAreOne }
{}

/// A text that was written with its seal isn't refused: the seal that is read in it is the configuration's own, and
/// the check finds no difference.
pub fn sealed_texts_are_taken()
    ensures { SealedTextsAreTaken }
{}
