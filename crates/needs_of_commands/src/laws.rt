//! Laws of traps and of questions. These calls do nothing: their clauses are laws.
ghost use Rattle.needs_of_commands.specs.Laws.{PassedIsDefined, PlaceNeedsMayBeAsked, QuestionsMayBeAsked, RowsDescend, TrapsStandBefore};

/// The traps in whose reach a place is stand before it; so each row of a table of traps names a trap before its own place.
pub fn traps_stand_before()
    ensures before { TrapsStandBefore }
    ensures descend { RowsDescend }
{}

/// Questions may be asked where all types of their needs name atoms that are there, and fields have names of their own.
pub fn questions_may_be_asked()
    ensures { QuestionsMayBeAsked }
{}

/// All needs of a place may be asked about, where the types of the code and of its maps name atoms that are there; and they do where
/// the fields of the code and its places pass.
pub fn place_needs_may_be_asked()
    ensures passed { PassedIsDefined }
    ensures asked { PlaceNeedsMayBeAsked }
{}
