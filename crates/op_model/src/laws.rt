//! Laws of operations. These calls do nothing: their clauses are laws.
ghost use Rattle.op_model.specs.Laws.{HaveOneEffect, LevelsHaveNoTwins, LibraryAnswersOnce};

/// What natives come to.
pub trait Meaning {
    ghost use Rattle.value_model.specs.Meaning.{Answers};

    ghost answers: { Answers };
}

/// Each operation has one effect at most, where the natives come to one thing.
pub fn operations_have_one_effect<N: Meaning>()
    ensures { HaveOneEffect N.answers }
{}

/// Each call of the library comes to one thing at most.
pub fn library_answers_once()
    ensures { LibraryAnswersOnce }
{}

/// What is numbered level by level, each where it comes first, has no twins.
pub fn levels_have_no_twins()
    ensures { LevelsHaveNoTwins }
{}
