//! Laws of packages whose variables are read as declared. This call does nothing: its clauses are laws.
ghost use Rattle.declared_reads.specs.Laws.{DeclaredCodeDoesTheSame, DeclaredDoesTheSame, DeclaredNarrowsWell, DeclaredSameIsAllowed};

use op_model::Meaning;

/// A package whose variables are read as declared has an outcome exactly where the package has it. Where code is lowered from it, each
/// narrowed read that is left holds a value of its type, and no body that is said not to end comes to its end; so this code has the
/// outcomes of the package, and what may come of it is what may come of the package. Nothing is asked of the checkers that made the
/// package.
pub fn declared_packages_do_the_same<N: Meaning>()
    ensures trees { DeclaredDoesTheSame N.answers }
    ensures narrows { DeclaredNarrowsWell N.answers }
    ensures outcomes { DeclaredCodeDoesTheSame N.answers }
    ensures allowed { DeclaredSameIsAllowed N.answers }
{}
