//! Laws of steps that store into structures. These calls do nothing: their clauses are laws.
ghost use Rattle.code_keeping_stores.specs.Laws.{KeyStoresAreDone};

use op_model::Meaning;

/// What a frame of well-typed code asks for fits, whatever comes, and something comes, where a member of a mapping is stored.
pub fn stores_are_done<N: Meaning>()
    ensures { KeyStoresAreDone N.answers }
{}
