//! Laws of steps that call the library to copy values. These calls do nothing: their clauses are laws.
ghost use Rattle.code_keeping_copies.specs.Laws.{ClonesAreDone, ReadOnlyClonesAreDone};

/// What a frame of well-typed code asks for fits, whatever comes, and something comes, where it calls the library to clone a value, and to
/// clone it so that it can't change.
pub fn copies_are_done()
    ensures clones { ClonesAreDone }
    ensures read_only { ReadOnlyClonesAreDone }
{}
