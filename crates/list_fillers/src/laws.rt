//! Laws of fillers. This call does nothing: its clauses are laws.
ghost use Rattle.list_fillers.specs.Laws.{MarksStaySound, StillMarksAreExact};

/// Marks of atoms whose lists can be filled stay right from round to round, and where a round changes none any more, the fillers that
/// they choose are those of all atoms.
pub fn marks_that_stay_are_exact()
    ensures sound { MarksStaySound }
    ensures exact { StillMarksAreExact }
{}
