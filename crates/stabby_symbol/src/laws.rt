//! Facts about packed texts that hold of the definitions alone: each function says one, and does nothing.
ghost use Rattle.stabby_symbol.specs.Laws.{DifferentTextsDiffer, UnpackedIsPacked, TextsAgree};

/// Different texts have different tables.
pub fn different_texts_differ()
    ensures { DifferentTextsDiffer }
{}

/// A table is refused exactly where it is no text's.
pub fn unpacked_is_packed()
    ensures { UnpackedIsPacked }
{}

/// Numbers of texts: in fronts that are prefixes of one list they are equal exactly where the texts are, and in each later
/// front a number's text is the one that it was given to, and reads back.
pub fn texts_agree()
    ensures { TextsAgree }
{}
