//! Laws of steps that store into lists. These calls do nothing: their clauses are laws.
ghost use Rattle.code_keeping_fillers.specs.Laws.{ItemStoresAreDone};

use op_model::Meaning;

/// What a frame of well-typed code asks for fits, whatever comes, and something comes, where an item of a list is stored, at a place in the
/// list or behind its end, with fillers that are those of the places.
pub fn item_stores_are_done<N: Meaning>()
    ensures { ItemStoresAreDone N.answers }
{}
