//! Laws of needs. These calls do nothing: their clauses are laws.
ghost use Rattle.code_needs.specs.Laws.{NeedsDecideAll, NeedsDecideCode, NeedsDecideFields, NeedsDecidePlaces, NeedsDecideRows, NothingBeyond};

/// An operation is typed exactly where the tests of its row pass and its needs are met.
pub fn needs_decide_rows()
    ensures { NeedsDecideRows }
{}

/// A place is typed, as one of its worker's, exactly where its tests of numbers pass and its needs are met: those of its
/// instruction, of the places where it goes on, and of the traps in whose reach it is.
pub fn needs_decide_places()
    ensures { NeedsDecidePlaces }
{}

/// A place of a code holds exactly where all its tests of numbers pass and each of its needs is met, also those of messages
/// between workers and of returns. A table tells which returns come when all messages are made.
pub fn needs_decide_code()
    ensures { NeedsDecideCode }
{}

/// The fields of a code beside its instructions and maps hold exactly where their numbers pass and their needs are met: of
/// units' slots, rest parameters and workers, of their own atoms, of initialisers, and of main.
pub fn needs_decide_fields()
    ensures { NeedsDecideFields }
{}

/// Where the fields of a code pass, a number that is no place has nothing to hold. So a code is well typed exactly where its
/// fields and all its places pass and each of their needs is met.
pub fn needs_decide_all()
    ensures beyond { NothingBeyond }
    ensures all { NeedsDecideAll }
{}
