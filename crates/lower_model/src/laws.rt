//! Laws of lowering. These calls do nothing: their clauses are laws.
ghost use Rattle.lower_model.specs.Assembled.{AssembledIsLowered};
ghost use Rattle.lower_model.specs.Laws.{LoweredFramesFollow};
ghost use Rattle.lower_model.specs.Laying.{ExpressionsAreLaid, StatementsAreLaid, UnitsAreLaid};
ghost use Rattle.lower_model.specs.Whole.{CodeDoesTheSame, SameIsAllowed};

use op_model::Meaning;

/// Code that is lowered from a package has an outcome exactly where the package has it, for all words that are texts, inputs,
/// orders and ticks, where narrowed variables hold values of their narrower types. So what may come of it is what may come of
/// the package, where its inherent atoms are those of the package. Each frame of the package is followed by one of the code.
pub fn lowered_code_does_the_same<N: Meaning>()
    ensures outcomes { CodeDoesTheSame N.answers }
    ensures allowed { SameIsAllowed N.answers }
    ensures frames { LoweredFramesFollow N.answers }
{}

/// What is added for an expression, a statement or a unit to code that is being made stands for it in each code that has all that
/// was made.
pub fn what_is_made_stands()
    ensures expressions { ExpressionsAreLaid }
    ensures statements { StatementsAreLaid }
    ensures units { UnitsAreLaid }
{}

/// Code that is put together of what is made for all units of a package is lowered from the package.
pub fn assembled_code_is_lowered()
    ensures { AssembledIsLowered }
{}
