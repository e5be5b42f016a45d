//! Laws of steps that make, read and change structures. These calls do nothing: their clauses are laws.
ghost use Rattle.code_keeping_heap.specs.Laws.{ConstructorsAreDone, ReadsAreDone};

use op_model::Meaning;

/// What a frame of well-typed code asks for fits, whatever comes, and something comes, where lists, mappings, errors and
/// function values are made.
pub fn constructors_are_done<N: Meaning>()
    ensures { ConstructorsAreDone N.answers }
{}

/// And so where items of lists and members of mappings are read.
pub fn reads_are_done<N: Meaning>()
    ensures { ReadsAreDone N.answers }
{}
