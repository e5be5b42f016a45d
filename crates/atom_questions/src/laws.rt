//! Laws of needs where atoms are added. The call does nothing: its clause is the law.
ghost use Rattle.atom_questions.specs.Kept.{AnswersKept};

/// Where each type is kept, as calls that add atoms keep it, what an answer says of a need over the older atoms is what it says
/// over the new ones.
pub fn answers_are_kept()
    ensures { AnswersKept }
{}
