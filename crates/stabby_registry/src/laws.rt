//! Laws of the numbers that inserts give, each the contract of a function that does nothing.

ghost use Rattle.stabby_registry.specs.Laws.{NumbersStay, CallersAgree};
ghost use Rattle.stabby_registry.specs.Rows.{PassesKnowTheirRoom};

/// In each later front of a pass a table has the number that it was given, no other, and alone.
pub fn numbers_stay()
    ensures { NumbersStay }
{}

/// Equal tables have equal numbers and different tables different ones, whichever caller was first.
pub fn callers_agree()
    ensures { CallersAgree }
{}

/// A pass of a row knows how many words the row has.
pub fn passes_know_their_room()
    ensures { PassesKnowTheirRoom }
{}
